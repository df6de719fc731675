//! Laws: there is exactly one placement, and there are two ways to compute it.
ghost use Rattle.tao_model.specs.PlacementLaws.{OnePlacement, PlacedAlike, PassPlaces, PassMore, SpotAlike, FillPlaces, HandsOut, HandsMore, TakesLowest};

/// There is at most one placement.
pub fn one_placement()
    ensures { OnePlacement }
{}

/// A placement stays one if tests, gathered blocks and contents are equal point by point.
pub fn placed_alike()
    ensures { PlacedAlike }
{}

/// One pass in rising id, each block into the greatest node with a free slot, is a placement.
pub fn pass_places()
    ensures { PassPlaces }
{}

/// One more entry, for the loop over them.
pub fn pass_more()
    ensures { PassMore }
{}

/// Where a block goes depends only on how many entries each node has.
pub fn spot_alike()
    ensures { SpotAlike }
{}

/// Filling node by node, the greatest first, is a placement too, hence the same one.
pub fn fill_places()
    ensures { FillPlaces }
{}

/// What a node takes from a rising stash, and what stays.
pub fn hands_out()
    ensures { HandsOut }
{}

/// One more entry of the stash, for the loop over it.
pub fn hands_more()
    ensures { HandsMore }
{}

/// A node takes the lowest ids that may lie there, as many as it has slots.
pub fn takes_lowest()
    ensures { TakesLowest }
{}
