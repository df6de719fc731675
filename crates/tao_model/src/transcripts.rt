//! Laws: the text of a session with the answers that it gave.
ghost use Rattle.tao_model.specs.Transcript.{GivenIsPlain};

/// If all released answers are the plain array's, so is the whole text. So a session that copies its answers prints the same text.
pub fn given_is_plain()
    ensures { GivenIsPlain }
{}
