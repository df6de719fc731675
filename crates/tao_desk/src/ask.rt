//! What an arrival is given, to have its path fetched.
use std::marker::Model;

/// The fetch of one arrival. There is only one of each, and `Desk::done` takes it.
#[derive(Debug, Drop)]
pub struct Ask {
    arrival: u64,
    leaf: u32,
}

impl Model for Ask {
    ghost use Rattle.tao_desk.specs.Calls.{AskState};

    ghost Value = { AskState };

    ghost view = { λ a. record { arrival = a.arrival; leaf = a.leaf } };
}

impl Ask {
    ghost use Rattle.std.specs.Prelude.{◌≡◌};

    pub(crate) fn new(arrival: u64, leaf: u32) -> Ask
        ensures { result ≡ record { arrival = arrival; leaf = leaf } }
    {
        Ask { arrival, leaf }
    }

    /// The number of the arrival.
    pub fn arrival(&self) -> u64
        ensures { result ≡ self.now.arrival }
    {
        self.arrival
    }

    /// The leaf whose path is fetched.
    pub fn leaf(&self) -> u32
        ensures { result ≡ self.now.leaf }
    {
        self.leaf
    }
}
