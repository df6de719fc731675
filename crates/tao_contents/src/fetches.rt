//! Laws: copies stay fresh when a fetched path is admitted, looked up, put and evicted.
ghost use Rattle.tao_contents.specs.FetchLaws.{TakingInKeeps, FetchFinds, RealFetchKeeps, FakeFetchKeeps};

/// Admitting an honest answer moves no entry.
pub fn taking_in_keeps()
    ensures { TakingInKeeps }
{}

/// Then the look-up finds the settled value of a block whose path was fetched.
pub fn fetch_finds()
    ensures { FetchFinds }
{}

/// After a fetch for a block its copy is fresh with the new value and position, and all others are as fresh as before.
pub fn real_fetch_keeps()
    ensures { RealFetchKeeps }
{}

/// After a fetch for no block, by a fake arrival or a pad, all are.
pub fn fake_fetch_keeps()
    ensures { FakeFetchKeeps }
{}
