//! What follows from the definition of a stream alone. Each law is the contract of a function that does nothing.
ghost use Rattle.tao_wire.specs.Laws.{OneReading, EveryStream, FrontOf, SplitsFed, SplitsHanded, FaultyLater, AnyCutting, AllHanded, FaultForEver};

/// Each stream is some messages and a rest, and no others.
pub fn one_reading()
    ensures one { OneReading }
    ensures some { EveryStream }
{}

/// What a loop over a decoder keeps true of its stream.
pub fn splitting()
    ensures front { FrontOf }
    ensures fed { SplitsFed }
    ensures handed { SplitsHanded }
    ensures faulty { FaultyLater }
{}

/// What a decoder hands out are the first messages of its stream, and all of them where it answers None or a fault of the stream.
pub fn any_cutting()
    ensures first { AnyCutting }
    ensures all { AllHanded }
{}

/// Each fault but `Memory` is a sticky error.
pub fn fault_for_ever()
    ensures { FaultForEver }
{}
