//! Laws: the pools suffice for each event.
ghost use Rattle.tao_tables.specs.Pools.{CountsAreKnown, RoomGrows, RoomArrive, RoomDone, RoomIssue, RoomAcked, RoomAtStart, RoomReserve};

/// The counts of a lawful record keep their order.
pub fn counts_are_known()
    ensures { CountsAreKnown }
{}

/// Larger pools suffice too.
pub fn room_grows()
    ensures { RoomGrows }
{}

/// A preallocated arrival finds what it takes.
pub fn room_arrive()
    ensures { RoomArrive }
{}

/// A Done finds what it takes.
pub fn room_done()
    ensures { RoomDone }
{}

/// A write-back that is due finds what it takes.
pub fn room_issue()
    ensures { RoomIssue }
{}

/// An acknowledgement finds what it takes.
pub fn room_acked()
    ensures { RoomAcked }
{}

/// At the start nothing is needed.
pub fn room_at_start()
    ensures { RoomAtStart }
{}

/// Pools that are filled up suffice for one more arrival.
pub fn room_reserve()
    ensures { RoomReserve }
{}
