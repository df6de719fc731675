//! Laws: the final look.
ghost use Rattle.tao_fresh.specs.FreshLaws.{ArrayIsSeen};

/// When all is done and answers were honest, a scan of all nodes sees the plain array.
pub fn array_is_seen()
    ensures { ArrayIsSeen }
{}
