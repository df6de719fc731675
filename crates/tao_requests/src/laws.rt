//! Laws: what the answers are, and that the requests are a record's arrivals.
ghost use Rattle.tao_requests.specs.Laws.{AnswersArePlain, ValueIsPlain, KindIsReal, FollowsNone, FollowsArrive, FollowsReal, FollowsFake, FollowsFurther};

/// Settling a block's requests answers them as the plain array does, in the order of arrival.
pub fn answers_are_plain()
    ensures { AnswersArePlain }
{}

/// The remaining value is the plain array's.
pub fn value_is_plain()
    ensures { ValueIsPlain }
{}

/// `begin` answers Real exactly if the definition over a record's events does.
pub fn kind_is_real()
    ensures { KindIsReal }
{}

/// An empty record has no requests.
pub fn follows_none()
    ensures { FollowsNone }
{}

/// One more arrival is one more request.
pub fn follows_arrive()
    ensures { FollowsArrive }
{}

/// The Done of a real arrival may settle it, and settles exactly what the definition over the events says.
pub fn follows_real()
    ensures { FollowsReal }
{}

/// The Done of a fake arrival settles nothing.
pub fn follows_fake()
    ensures { FollowsFake }
{}

/// Write-backs, acknowledgements and Faults change nothing.
pub fn follows_further()
    ensures { FollowsFurther }
{}
