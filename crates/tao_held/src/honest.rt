//! Laws: honest answers.
ghost use Rattle.tao_held.specs.HonestAnswers.{UnalteredBoth, UnalteredEarlier};

/// Honest in two senses is honest in what follows from both.
pub fn unaltered_both()
    ensures { UnalteredBoth }
{}

/// Answers that were all honest were so earlier.
pub fn unaltered_earlier()
    ensures { UnalteredEarlier }
{}
