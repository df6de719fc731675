//! What stops a call that reads or writes.
ghost use Rattle.std.specs.Prelude.{◌≡◌};

use tao_base::{Failed, NoMemory};

/// Why an input wasn't taken, or an output wasn't given, to its end.
#[derive(Clone, Copy, Debug, PartialEq, Eq)]
pub enum StreamFault {
    /// The source or the sink has failed.
    Failed,
    /// Memory ran out. Some of the bytes may have been taken or given.
    NoMemory,
}

impl From<Failed> for StreamFault {
    ghost use Rattle.taostore.specs.declared.faults.StreamFault.TheVariants.{Failed};

    ghost from_gives = { λ _ fault. fault ≡ Failed };

    fn from(_: Failed) -> Self {
        StreamFault::Failed
    }
}

impl From<NoMemory> for StreamFault {
    ghost use Rattle.taostore.specs.declared.faults.StreamFault.TheVariants.{NoMemory};

    ghost from_gives = { λ _ fault. fault ≡ NoMemory };

    fn from(_: NoMemory) -> Self {
        StreamFault::NoMemory
    }
}
