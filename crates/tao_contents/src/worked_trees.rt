//! Worked contents of a tree, up to its last leaf.
ghost use Rattle.tao_contents.specs.WorkedTrees.{TreesAreTold};

/// The stash and the last leaf may have entries, a node behind it may not, and entries rise.
pub fn trees_are_told()
    ensures { TreesAreTold }
{}
