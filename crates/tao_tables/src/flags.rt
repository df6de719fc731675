//! Laws: the flags of Dones and of acknowledgements.
ghost use Rattle.tao_tables.specs.Flags.{FlagsAreTold, FlagsAtStart, ReleasedByFlags, AckedByFlags};

/// A Done and an acknowledgement set one flag each, which wasn't set.
pub fn flags_are_told()
    ensures { FlagsAreTold }
{}

/// At the start no flag is set.
pub fn flags_at_start()
    ensures { FlagsAtStart }
{}

/// As many arrivals are released by the flags as by the record.
pub fn released_by_flags()
    ensures { ReleasedByFlags }
{}

/// The flags give the first outstanding version.
pub fn acked_by_flags()
    ensures { AckedByFlags }
{}
