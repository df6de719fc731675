//! Laws: what honest answers are, said of the whole record.
ghost use Rattle.tao_laws.specs.HonestFetches.{UnalteredMeans, UnalteredByTest};

/// Answers are unaltered exactly where each fetched bucket has the entries of its node's latest version.
pub fn unaltered_means()
    ensures { UnalteredMeans }
{}

/// So it is in each sense of being the same that a test decides.
pub fn unaltered_by_test()
    ensures { UnalteredByTest }
{}
