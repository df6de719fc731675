//! Stores that are sent again.
ghost use Rattle.tao_model.specs.WorkedResends.{ResendsAreTold, ResendsAreSeen, RequestsAreTold, GivenAreTold};

/// The text of two stores sent again and acknowledged the later first, with a close and without one.
pub fn resends_are_told()
    ensures { ResendsAreTold }
{}

/// What the server sees of them.
pub fn resends_are_seen()
    ensures { ResendsAreSeen }
{}

/// The lines of these requests.
pub fn requests_are_told()
    ensures { RequestsAreTold }
{}

/// The text of a session that answered another value than the plain array.
pub fn given_are_told()
    ensures { GivenAreTold }
{}
