//! Laws: the proxy holds a node as it was last written, unless it was touched since the last write-back.
ghost use Rattle.tao_contents.specs.CleanLaws.{RealFetchKeepsClean, FakeFetchKeepsClean, IssueCleans, AcknowledgementKeepsClean, CurrentIsWritten};

/// A fetch for a block touches only its path; all other nodes stay as clean as they were.
pub fn real_fetch_keeps_clean()
    ensures { RealFetchKeepsClean }
{}

/// So does a fetch for no block, by a fake arrival or a pad.
pub fn fake_fetch_keeps_clean()
    ensures { FakeFetchKeepsClean }
{}

/// A write-back of the recent nodes makes all nodes clean.
pub fn issue_cleans()
    ensures { IssueCleans }
{}

/// After some nodes leave, the others are as clean as before.
pub fn acknowledgement_keeps_clean()
    ensures { AcknowledgementKeepsClean }
{}

/// If all held nodes are clean, every node of the tree is as it was last written.
pub fn current_is_written()
    ensures { CurrentIsWritten }
{}
