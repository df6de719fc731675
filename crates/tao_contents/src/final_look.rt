//! Laws: when all is done, a scan sees the plain array.
ghost use Rattle.tao_contents.specs.FinalArray.{SeenIsFinal, FinalArray};

/// Each entry seen has its block's value in the plain array after all arrivals.
pub fn seen_is_final()
    ensures { SeenIsFinal }
{}

/// The values seen are the plain array after all arrivals, in whatever order the nodes are read.
pub fn final_array()
    ensures { FinalArray }
{}
