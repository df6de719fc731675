//! The rows of arrivals.
ghost use Rattle.std.specs.Prelude.{◌≡◌, ◌<◌, ◌^◌, true, false};
ghost use Rattle.tao_base.specs.Limits.{IsShape};
ghost use Rattle.tao_model.specs.Lawful.{IsInRange};
ghost use Rattle.tao_requests.specs.State.{is_real_kind};
ghost use Rattle.tao_processor.specs.Steps.{leaf_now as the_leaf};

use tao_base::{Op, Params};
use tao_holdings::Holdings;
use tao_requests::Kind;

/// The leaf that an arrival fetches, and its own word.
#[derive(Clone, Copy, Debug)]
pub(crate) struct Fetch {
    pub leaf: u32,
    pub word: u32,
}

/// The leaf that a new arrival fetches.
pub(crate) fn leaf_now(p: &Params, holdings: &Holdings, kind: Kind, op: &Op, word: u32) -> u32
    requires shape { p.now ≡ holdings.now.shape }
    requires range { IsInRange holdings.now.shape op.now }
    ensures { result ≡ the_leaf (is_real_kind kind) holdings.now op.now word }
{
    match kind {
        Kind::Real => match op {
            Op::Read(block) | Op::Write(block, _) => holdings.leaf(*block),
            Op::Pad => word % (1 << p.l()),
        },
        Kind::Fake => word % (1 << p.l()),
    }
}
