//! Laws: one look-up, one put, one eviction.
ghost use Rattle.tao_contents.specs.Moves.{FreshAlike, LookUpFinds, PutIsFound, FreshMayBeEvicted, PutMayBeEvicted, EvictionKeeps};

/// Fresh copy depends only on positions, values and look-ups.
pub fn fresh_alike()
    ensures { FreshAlike }
{}

/// The look-up finds a block's settled value if the path of its position was fetched.
pub fn look_up_finds()
    ensures { LookUpFinds }
{}

/// What was put is found even if the path has an older copy.
pub fn put_is_found()
    ensures { PutIsFound }
{}

/// Fresh copies may be evicted along any path.
pub fn fresh_may_be_evicted()
    ensures { FreshMayBeEvicted }
{}

/// They may also be evicted after a put of a block on this path, whatever its new position is.
pub fn put_may_be_evicted()
    ensures { PutMayBeEvicted }
{}

/// An eviction leaves one copy of each block, where its position allows.
pub fn eviction_keeps()
    ensures { EvictionKeeps }
{}
