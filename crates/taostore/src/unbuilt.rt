//! What a script may ask for that can't be played yet.
ghost use Rattle.std.specs.Prelude.{◌≡◌, not, position, IfNone};
ghost use Rattle.taostore.specs.Unbuilt.{IsPlayable, is_one, is_whole, unbuilt_line, unbuilt_step, whole_steps};

use tao_base::{Form, Op};
use tao_text::{Script, Step, What};

#[tactic(auto, unfolding(crate::specs::Unbuilt::unbuilt_line), using(crate::proofs::Whole::is_playable))]
/// The first line of a script that asks for more than whole operations on blocks, each written back before the next, in a store of form 1
/// and up to the limit of a session.
pub(crate) fn unbuilt_line(script: &Script) -> Option<u32>
    ensures value { result ≡ unbuilt_line script.now }
    ensures playable { IfNone result (IsPlayable script.now) }
{
    if script.params.k() != 1 {
        return Some(script.tree_line);
    }
    if !is_one(script.params.form()) {
        return Some(script.form_line.unwrap_or(script.tree_line));
    }
    unbuilt_step(
        script.params.session_limit() as usize,
        script.steps.as_slice(),
    )
}

fn is_one(form: Form) -> bool
    ensures { result ≡ is_one form }
{
    match form {
        Form::One => true,
        Form::Two | Form::Turn => false,
    }
}

#[tactic(auto, unfolding(crate::specs::Unbuilt::unbuilt_step))]
fn unbuilt_step(limit: usize, steps: &[Step]) -> Option<u32>
    ensures { result ≡ unbuilt_step limit steps.now }
{
    match steps.get(limit.min(whole_steps(steps))) {
        Some(step) => Some(step.line),
        None => None,
    }
}

// How many steps, from the first one on, are whole operations on blocks.
fn whole_steps(steps: &[Step]) -> usize
    ensures { result ≡ whole_steps steps.now }
{
    first_other(steps).unwrap_or(steps.len())
}

fn first_other(steps: &[Step]) -> Option<usize>
    ensures { result ≡ position (λ step. not (is_whole step.what)) steps.now }
{
    steps.iter().position(|step| !is_whole(&step.what))
}

// Whether a step is a whole operation on a block.
fn is_whole(what: &What) -> bool
    ensures { result ≡ is_whole what.now }
{
    match what {
        What::Do(_, Op::Read(_)) | What::Do(_, Op::Write(..)) => true,
        What::Do(_, Op::Pad)
        | What::A(..)
        | What::Read(..)
        | What::Done(_)
        | What::Put(..)
        | What::Ack(_) => false,
    }
}
