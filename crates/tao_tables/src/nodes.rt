//! Laws: the tables of nodes.
ghost use Rattle.tao_tables.specs.Tables.{TellsArrive, TellsDone, TellsIssue, TellsAcked, TellsFault, TellsStart, CoverIsBounded};

/// An arrival covers its path.
pub fn tells_arrive()
    ensures { TellsArrive }
{}

/// A Done admits its path, with its contents after the fetch.
pub fn tells_done()
    ensures { TellsDone }
{}

/// A write-back gives its nodes its version.
pub fn tells_issue()
    ensures { TellsIssue }
{}

/// An acknowledgement drops nodes.
pub fn tells_acked()
    ensures { TellsAcked }
{}

/// A Fault changes nothing.
pub fn tells_fault()
    ensures { TellsFault }
{}

/// At the start no node is held.
pub fn tells_start()
    ensures { TellsStart }
{}

/// Each arrival covers a node at most once, and one under way covers the nodes of its path.
pub fn cover_is_bounded()
    ensures { CoverIsBounded }
{}
