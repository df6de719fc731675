//! Laws: the answers stay under events that settle none.
ghost use Rattle.tao_tables.specs.Served.{ServedElse, ServedAtStart, ReleasedIsServed};

/// An arrival, a fake Done, a write-back, an acknowledgement and a Fault keep the answers.
pub fn served_else()
    ensures { ServedElse }
{}

/// At the start there is no answer.
pub fn served_at_start()
    ensures { ServedAtStart }
{}

/// What is released has the record's answer.
pub fn released_is_served()
    ensures { ReleasedIsServed }
{}
