//! Laws: which nodes the proxy holds, and the latest versions of those that it doesn't.
ghost use Rattle.tao_laws.specs.Residents.{PeriodsAreCounted, RecentIsResident, WrittenAfterTouch, ExactVersion, IssuedIsResident, AwayIsWritten, UntouchedSince, LeavesAcknowledged, AwayIsAcknowledged, AsItWasAsked, OneAnswerIsNewest};

/// Write-backs keep pace with Dones. So they can be preallocated.
pub fn periods_are_counted()
    ensures { PeriodsAreCounted }
{}

/// A node touched since the last write-back is held. So a write-back can read each of its nodes.
pub fn recent_is_resident()
    ensures { RecentIsResident }
{}

/// A write-back writes nodes that were touched in its own period. The proxy's own version of a node rests on this.
pub fn written_after_touch()
    ensures { WrittenAfterTouch }
{}

/// A node's last touch determines its version. So a node not touched since its write-back still has the written entries.
pub fn exact_version()
    ensures { ExactVersion }
{}

/// A write-back reads only residents. So the latest version of a node that is only on the server never changes.
pub fn issued_is_resident()
    ensures { IssuedIsResident }
{}

/// A node that isn't held was written since its last touch. So the server has all that the proxy let go.
pub fn away_is_written()
    ensures { AwayIsWritten }
{}

/// A node that was written and not touched since has that version. So the proxy may let it go at the acknowledgement.
pub fn untouched_since()
    ensures { UntouchedSince }
{}

/// A node that leaves has the acknowledged version. So server and proxy agree on the nodes that aren't held.
pub fn leaves_acknowledged()
    ensures { LeavesAcknowledged }
{}

/// A node that isn't held was acknowledged. So an honest server can answer each fetch with the latest version.
pub fn away_is_acknowledged()
    ensures { AwayIsAcknowledged }
{}

/// A fetch reads nodes as they were at its request. So a stale answer shows that the server is at fault.
pub fn as_it_was_asked()
    ensures { AsItWasAsked }
{}

/// Only one version is right at a fetched node. So an answer no older than the acknowledged versions is accepted.
pub fn one_answer_is_newest()
    ensures { OneAnswerIsNewest }
{}
