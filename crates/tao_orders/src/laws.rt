//! A law of shares.
ghost use Rattle.tao_orders.specs.Shares.{JoinedIsWhole};

/// A whole share that was split is whole once it is joined.
pub fn joined_is_whole()
    ensures { JoinedIsWhole }
{}
