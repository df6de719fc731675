//! Laws: what was written.
ghost use Rattle.tao_tables.specs.Writes.{IssuedIs, NewestWrite};

/// The nodes of a version are those of its write-back.
pub fn issued_is()
    ensures { IssuedIs }
{}

/// Each node of the tree has a bucket of its latest version, in form.
pub fn newest_write_is()
    ensures { NewestWrite }
{}
