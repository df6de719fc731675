//! Laws: write-backs and acknowledgements keep the copies fresh, and the written contents are fresh too.
ghost use Rattle.tao_contents.specs.WriteBackLaws.{IssueKeeps, AcknowledgementKeeps, WriteBackIsFresh, FreshWritesCount};

/// A write-back of nodes that the proxy holds moves no entry.
pub fn issue_keeps()
    ensures { IssueKeeps }
{}

/// An acknowledgement that lets clean nodes go moves no entry.
pub fn acknowledgement_keeps()
    ensures { AcknowledgementKeeps }
{}

/// Right after a write-back each block is written once, with its value, on its path, or nowhere if the path is full.
pub fn write_back_is_fresh()
    ensures { WriteBackIsFresh }
{}

/// Fresh writes have at most one entry of each block.
pub fn fresh_writes_count()
    ensures { FreshWritesCount }
{}
