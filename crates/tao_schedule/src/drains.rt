//! Laws: the drain of a session.
ghost use Rattle.tao_schedule.specs.Drains.{DrainGoesOn, PartDrainGoesOn, DrainIsPlayed, DrainsAlike, DrainEnds};

/// A drain is part of a schedule. So the tree ends with the latest versions.
pub fn drain_goes_on()
    ensures { DrainGoesOn }
{}

/// A drain that was broken off is part of a schedule, too. So the server is in step there.
pub fn part_drain_goes_on()
    ensures { PartDrainGoesOn }
{}

/// A whole drain is one of which nothing is left.
pub fn drain_is_played()
    ensures { DrainIsPlayed }
{}

/// Sessions that are alike drain alike. So both send the same stores again.
pub fn drains_alike()
    ensures { DrainsAlike }
{}

/// A drain leaves nothing under way or outstanding. So the final array exists.
pub fn drain_ends()
    ensures { DrainEnds }
{}
