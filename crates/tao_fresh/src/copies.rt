//! Laws: clean nodes and fresh copies.
ghost use Rattle.tao_fresh.specs.FreshLaws.{ResidentsAreClean, CopiesAreFresh, PresentIsOfTree, CopiesAreCounted};

/// A held node is as it was last written, unless it was touched since the last write-back.
pub fn residents_are_clean()
    ensures { ResidentsAreClean }
{}

/// If answers were honest, each block has one copy, with its settled value, in the stash or on the path of its position.
pub fn copies_are_fresh()
    ensures { CopiesAreFresh }
{}

/// All entries of the present contents lie in the stash and the tree, in rising id.
pub fn present_is_of_tree()
    ensures { PresentIsOfTree }
{}

/// If answers were honest, the stash and all nodes have exactly one entry of each block.
pub fn copies_are_counted()
    ensures { CopiesAreCounted }
{}
