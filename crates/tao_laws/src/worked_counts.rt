//! Counts of a worked record, and a worked record retold.
ghost use Rattle.tao_laws.specs.WorkedCounts.{CountsAreTold, RetoldIsTold};

/// How many arrivals are done, and how many write-backs acknowledged, after some events.
pub fn counts_are_told()
    ensures { CountsAreTold }
{}

/// Four reads of one block retold with other operations.
pub fn retold_is_told()
    ensures { RetoldIsTold }
{}
