//! Laws: rising lists of entries, and which copy of a block counts if it has two.
ghost use Rattle.tao_model.specs.Copies.{FirstCopyCounts, NoCopy, StashGoesFirst, SameEntries, FewEntries, GathersNew, GathersOld, GathersMore, GathersFirst, GathersStash};

/// The copy that counts is that of the first node that has one.
pub fn first_copy_counts()
    ensures { FirstCopyCounts }
{}

/// Nothing is gathered of a block without a copy.
pub fn no_copy()
    ensures { NoCopy }
{}

/// The stash's copy counts before those of a path.
pub fn stash_goes_first()
    ensures { StashGoesFirst }
{}

/// Two rising lists with equal look-ups are equal.
pub fn same_entries()
    ensures { SameEntries }
{}

/// A rising list has no more entries than there are ids.
pub fn few_entries()
    ensures { FewEntries }
{}

/// A new entry goes between the lower and the higher ids.
pub fn gathers_new()
    ensures { GathersNew }
{}

/// An entry whose id is already there changes nothing.
pub fn gathers_old()
    ensures { GathersOld }
{}

/// Gathering more entries into a rising list keeps it rising, and keeps what it had.
pub fn gathers_more()
    ensures { GathersMore }
{}

/// What is gathered from nodes rises and has the first copies.
pub fn gathers_first()
    ensures { GathersFirst }
{}

/// A stash in order is gathered unchanged.
pub fn gathers_stash()
    ensures { GathersStash }
{}
