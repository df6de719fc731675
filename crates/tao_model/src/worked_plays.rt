//! Worked records as the server sees them, and beside a second play.
ghost use Rattle.tao_model.specs.WorkedPlays.{TraceOutOfOrder, TouchedSinceIsKept, IsTwinOfReads};

/// What the server sees of two write-backs, the later acknowledged first: each store with its version, first nonce and nodes.
pub fn trace_out_of_order()
    ensures { TraceOutOfOrder }
{}

/// A node that was touched since its write-back stays.
pub fn touched_since_is_kept()
    ensures { TouchedSinceIsKept }
{}

/// Four reads of one block, and reads of four blocks with the first one's words moved: both fetch the same leaves.
pub fn twin_of_reads()
    ensures { IsTwinOfReads }
{}
