//! Laws: what later events don't change.
ghost use Rattle.tao_model.specs.Stays.{ArrivalsStay, ReleasedGrows, UsedStays, PrefixFollows};

/// An arrival's client, kind, word, leaf, plain reply and settler never change: what a caller was told stays true.
pub fn arrivals_stay()
    ensures { ArrivalsStay }
{}

/// The released count never falls: no answer is taken back.
pub fn released_grows()
    ensures { ReleasedGrows }
{}

/// The place of the word that an arrival uses never changes. So the places of a prefix are those of the whole record.
pub fn used_stays()
    ensures { UsedStays }
{}

/// A prefix of a record that follows lawfully does too. So what holds of every such record held at every moment of a session.
pub fn prefix_follows()
    ensures { PrefixFollows }
{}
