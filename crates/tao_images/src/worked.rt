//! Worked answers and orders.
ghost use Rattle.tao_images.specs.WorkedAnswers.{FirstRefusals, SkippedNodes, MetNodes, WorkedOrders};

/// Latest, older and damaged buckets in the answer to a fetch.
pub fn first_refusals()
    ensures { FirstRefusals }
{}

/// Nodes at which a fetch or the scan doesn't look, and those at which it does.
pub fn skipped_nodes()
    ensures { SkippedNodes }
{}

/// The nodes of a tree of height 2, as a scan meets them.
pub fn met_nodes()
    ensures { MetNodes }
{}

/// An order by its bytes.
pub fn worked_orders()
    ensures { WorkedOrders }
{}
