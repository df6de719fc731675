//! Laws: what is found and answered.
ghost use Rattle.tao_fresh.specs.FreshLaws.{FoundIsPlain, AnswersAreRight};

/// If answers were honest, a real fetch found its plain reply.
pub fn found_is_plain()
    ensures { FoundIsPlain }
{}

/// If answers were honest, a settled arrival is answered its plain reply.
pub fn answers_are_right()
    ensures { AnswersAreRight }
{}
