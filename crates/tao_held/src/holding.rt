//! Laws: how one more event changes what the proxy holds.
ghost use Rattle.tao_held.specs.HeldLaws.{HeldStays, AwayIsEmpty};

/// Only a Done changes entries, and an acknowledgement lets nodes go.
pub fn held_stays()
    ensures { HeldStays }
{}

/// A node that the proxy doesn't hold is empty.
pub fn away_is_empty()
    ensures { AwayIsEmpty }
{}
