//! Checks what a script says against its parameters.
ghost use Rattle.std.specs.Prelude.{◌≡◌};
ghost use Rattle.tao_text.specs.Limits.{call_fits, entry_fits, op_fits, params_of, step_fits};

use crate::faults::TextKind;
use crate::script::What;
use tao_base::{Entry, Op, Params};

// the greatest client number
const MOST_CLIENT: u32 = 63;

#[tactic(auto, unfolding(crate::specs::Limits::params_of))]
/// The parameters, untagged, or Range if they are past a limit.
pub(crate) fn params_of(l: u32, z: u32, b: u32, n: u32, k: u32) -> Result<Params, TextKind>
    ensures { result ≡ params_of l z b n k }
{
    match Params::new(l, z, b, n, k) {
        Ok(params) => Ok(params),
        Err(_) => Err(TextKind::Range),
    }
}

#[tactic(auto, unfolding(crate::specs::Limits::entry_fits))]
/// Checks a load against the parameters.
pub(crate) fn entry_fits(params: &Params, entry: &Entry) -> Result<(), TextKind>
    ensures { result ≡ entry_fits params.now entry.now }
{
    if entry.value.as_slice().len() != params.b() as usize {
        return Err(TextKind::Length);
    }
    if params.n() <= entry.id {
        return Err(TextKind::Range);
    }
    Ok(())
}

#[tactic(auto, unfolding(crate::specs::Limits::step_fits))]
/// Checks a step against the parameters.
pub(crate) fn step_fits(params: &Params, what: &What) -> Result<(), TextKind>
    ensures { result ≡ step_fits params.now what.now }
{
    let fits = match what {
        What::Do(client, op) | What::A(client, op) => return call_fits(params, *client, op),
        What::Read(_, Some(depth)) => *depth <= params.l(),
        What::Put(_, Some(node)) => 1 <= *node && *node <= params.nodes(),
        What::Read(_, None) | What::Put(_, None) | What::Done(_) | What::Ack(_) => true,
    };
    if fits { Ok(()) } else { Err(TextKind::Range) }
}

#[tactic(auto, unfolding(crate::specs::Limits::call_fits))]
// Checks a client and its operation against the parameters.
fn call_fits(params: &Params, client: u32, op: &Op) -> Result<(), TextKind>
    ensures { result ≡ call_fits params.now client op.now }
{
    op_fits(params, op)?;
    if client <= MOST_CLIENT {
        Ok(())
    } else {
        Err(TextKind::Range)
    }
}

#[tactic(auto, unfolding(crate::specs::Limits::op_fits))]
/// Checks an operation against the parameters.
pub(crate) fn op_fits(params: &Params, op: &Op) -> Result<(), TextKind>
    ensures { result ≡ op_fits params.now op.now }
{
    if let Op::Write(_, value) = op {
        if value.as_slice().len() != params.b() as usize {
            return Err(TextKind::Length);
        }
    }
    let known = match op {
        Op::Read(id) | Op::Write(id, _) => *id < params.n(),
        Op::Pad => true,
    };
    if known { Ok(()) } else { Err(TextKind::Range) }
}
