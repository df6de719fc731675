//! Buckets and records that are refused, beside those that are allowed.
ghost use Rattle.tao_model.specs.WorkedRefusals.{FormsAreTold, RefusalsAreTold};

/// A bucket whose entries rise, and buckets that break one limit each.
pub fn forms_are_told()
    ensures { FormsAreTold }
{}

/// A write-back that is owed, an event too early or too late, a version, a nonce and entries out of order.
pub fn refusals_are_told()
    ensures { RefusalsAreTold }
{}
