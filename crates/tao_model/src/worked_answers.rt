//! Honest and altered answers.
ghost use Rattle.tao_model.specs.WorkedAnswers.{AnswersAreTold};

/// An answer is altered where one bucket has other entries than were last written at its node.
pub fn answers_are_told()
    ensures { AnswersAreTold }
{}
