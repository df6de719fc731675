//! Laws: how one more event changes each look-back function.
ghost use Rattle.tao_model.specs.OneMore.{OneMoreArrive, OneMoreDone, OneMoreIssue, OneMoreAcked, OneMoreFault, PadsAreFake, PadsAreSettled};

/// One more arrival.
pub fn one_more_arrive()
    ensures { OneMoreArrive }
{}

/// One more Done: a fetched path that was admitted.
pub fn one_more_done()
    ensures { OneMoreDone }
{}

/// One more write-back.
pub fn one_more_issue()
    ensures { OneMoreIssue }
{}

/// One more acknowledgement.
pub fn one_more_acked()
    ensures { OneMoreAcked }
{}

/// The end of a session.
pub fn one_more_fault()
    ensures { OneMoreFault }
{}

/// A pad is never real.
pub fn pads_are_fake()
    ensures { PadsAreFake }
{}

/// A new arrival is settled at once exactly if it is a pad. So any other waits for a Done.
pub fn pads_are_settled()
    ensures { PadsAreSettled }
{}
