//! Laws: which words of the tape are used.
ghost use Rattle.tao_laws.specs.TapeWords.{LawfulIsInRange, DistinctWords, WordsAreKnown};

/// No word of the tape is used twice, and no word for a block's next fetch is used yet. So requests show nothing of the operations.
pub fn distinct_words()
    ensures { DistinctWords }
{}

/// The word of each arrival is on the tape when it comes. So no fetch waits for the tape, in a second play either.
pub fn words_are_known()
    ensures { WordsAreKnown }
{}

/// Lawful operations are in range: this is all that the two laws above need.
pub fn lawful_is_in_range()
    ensures { LawfulIsInRange }
{}
