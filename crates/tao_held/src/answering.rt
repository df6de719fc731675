//! Laws: answers don't change and are whole blocks, and what operations do to a value.
ghost use Rattle.tao_held.specs.HeldLaws.{AnswersStay, FoundStays, HeldHaveLength, FoundHaveLength, AnswersHaveLength, SinceIsFold, BetweenIsFold};

/// The answer of a settled arrival doesn't change.
pub fn answers_stay()
    ensures { AnswersStay }
{}

/// What was found for a done arrival doesn't change.
pub fn found_stays()
    ensures { FoundStays }
{}

/// All values that the proxy holds have the length of a block.
pub fn held_have_length()
    ensures { HeldHaveLength }
{}

/// What a look-up finds has the length of a block.
pub fn found_have_length()
    ensures { FoundHaveLength }
{}

/// The answer of a settled arrival has the length of a block, and a pad's has no bytes.
pub fn answers_have_length()
    ensures { AnswersHaveLength }
{}

/// The arrivals from one on change a value as the plain array does.
pub fn since_is_fold()
    ensures { SinceIsFold }
{}

/// The arrivals between two do, too.
pub fn between_is_fold()
    ensures { BetweenIsFold }
{}
