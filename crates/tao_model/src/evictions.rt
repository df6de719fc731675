//! Laws: there is exactly one load and exactly one eviction.
ghost use Rattle.tao_model.specs.Evictions.{EntriesAreGathered, PathFalls, SpotIsFirst, LoadSpot, LoadGathers, LoadIsPlaced, OneLoad, EvictionGathers, EvictionRound, EvictionIsPlaced, OneEviction, EvictionFills, FirstCopyStays};

/// Each entry of a placement is a gathered block.
pub fn entries_are_gathered()
    ensures { EntriesAreGathered }
{}

/// A path from the leaf up visits smaller and smaller nodes.
pub fn path_falls()
    ensures { PathFalls }
{}

/// One pass puts a block into the first node from the leaf up that it may lie in and that has a free slot.
pub fn spot_is_first()
    ensures { SpotIsFirst }
{}

/// The load puts a block into the first node with a free slot from its leaf up.
pub fn load_spot()
    ensures { LoadSpot }
{}

/// The entries of the array's blocks are what the load gathers.
pub fn load_gathers()
    ensures { LoadGathers }
{}

/// The computed tree is a load.
pub fn load_is_placed()
    ensures { LoadIsPlaced }
{}

/// Two loads have the same entries at every node.
pub fn one_load()
    ensures { OneLoad }
{}

/// The gathered entries of stash and path are what the eviction places.
pub fn eviction_gathers()
    ensures { EvictionGathers }
{}

/// The nodes that an eviction fills are those of the path, from the leaf up.
pub fn eviction_round()
    ensures { EvictionRound }
{}

/// The computed eviction is an eviction.
pub fn eviction_is_placed()
    ensures { EvictionIsPlaced }
{}

/// There is no other eviction.
pub fn one_eviction()
    ensures { OneEviction }
{}

/// Filling node by node from the leaf up gives the same eviction.
pub fn eviction_fills()
    ensures { EvictionFills }
{}

/// After an eviction a gathered block has one entry, with the value of its first copy.
pub fn first_copy_stays()
    ensures { FirstCopyStays }
{}
