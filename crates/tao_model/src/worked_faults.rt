//! Worked records and the causes with which they may end.
ghost use Rattle.tao_model.specs.WorkedFaults.{CausesThatCanBe, StaleThatCannotBe, FetchesThatCannotFail, ScansThatCannotFail};

/// A damaged and a stale bucket, of a fetch and of the closing scan, and a link that fails.
pub fn causes_that_can_be()
    ensures { CausesThatCanBe }
{}

/// No bucket is stale that has its node's latest version, whatever the last write-back's is.
pub fn stale_that_cannot_be()
    ensures { StaleThatCannotBe }
{}

/// No fetch fails before its arrival, when it is done, off its path, or at a node that the proxy holds.
pub fn fetches_that_cannot_fail()
    ensures { FetchesThatCannotFail }
{}

/// No scan fails before all is done and acknowledged.
pub fn scans_that_cannot_fail()
    ensures { ScansThatCannotFail }
{}
