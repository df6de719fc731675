//! Laws: the Fault that ends a record.
ghost use Rattle.tao_model.specs.Faults.{FaultsAgree, CauseIsFault, CauseIsLast};

/// A Fault is found from either end of a record. So a record and a look-back agree on whether the session is over.
pub fn faults_agree()
    ensures { FaultsAgree }
{}

/// There is a cause exactly where there is a Fault. So a session is over exactly if its cause is known.
pub fn cause_is_fault()
    ensures { CauseIsFault }
{}

/// Nothing follows a Fault. So a record with a Fault ends with it.
pub fn cause_is_last()
    ensures { CauseIsLast }
{}
