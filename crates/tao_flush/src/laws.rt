//! What holds of every path.
ghost use Rattle.tao_flush.specs.Laws.{LaidOutIs};

/// Lists read from a path's nodes and laid out again are what was there.
pub fn lists_laid_out()
    ensures { LaidOutIs }
{}
