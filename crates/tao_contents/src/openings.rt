//! Laws: the loaded tree is fresh.
ghost use Rattle.tao_contents.specs.OpeningLaws.{OpeningIsFresh, LoadWritesFresh};

/// After the load each block has a fresh copy.
pub fn opening_is_fresh()
    ensures { OpeningIsFresh }
{}

/// The load counts as a fresh write.
pub fn load_writes_fresh()
    ensures { LoadWritesFresh }
{}
