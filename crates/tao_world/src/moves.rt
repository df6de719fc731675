//! Laws: after each move, one move more is shown.
ghost use Rattle.tao_world.specs.Laws.{OpensShows, PartsJoin, PlacesShow, RoomShows, ArrivesShows, ServesShows, CompletesShows, AppliesShows, AcknowledgesShows};

/// The load is what the server has before any move.
pub fn opens_shows()
    ensures { OpensShows }
{}

/// It may be applied in parts.
pub fn parts_join()
    ensures { PartsJoin }
{}

/// Places that are made ready show nothing.
pub fn places_show()
    ensures { PlacesShow }
{}

/// Nor does the room for a path as long as nothing was read.
pub fn room_shows()
    ensures { RoomShows }
{}

/// An arrival.
pub fn arrives_shows()
    ensures { ArrivesShows }
{}

/// A read of one node.
pub fn serves_shows()
    ensures { ServesShows }
{}

/// A whole path that reaches the proxy, with or without a write-back.
pub fn completes_shows()
    ensures { CompletesShows }
{}

/// A write of one node.
pub fn applies_shows()
    ensures { AppliesShows }
{}

/// An acknowledgement.
pub fn acknowledges_shows()
    ensures { AcknowledgesShows }
{}
