//! Laws: what is written.
ghost use Rattle.tao_fresh.specs.FreshLaws.{WritesAreFresh};

/// If answers were honest, the load and each write-back were fresh writes when made.
pub fn writes_are_fresh()
    ensures { WritesAreFresh }
{}
