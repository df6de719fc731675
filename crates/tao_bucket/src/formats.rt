//! Which format a bucket is written in.
ghost use Rattle.std.specs.Prelude.{◌≡◌};
ghost use Rattle.tao_bucket.specs.Encoding.{IsWritten, format_of};

use tao_base::{Form, Params};

/// The format of a node's bucket of this version: the load has version 0, and write-backs count from 1.
#[tactic(auto, using(crate::proofs::Whole::format_is_written))]
pub fn format_of(p: &Params, version: u32) -> u8
    ensures value { result ≡ format_of p.now.form version }
    ensures written { IsWritten p.now.form result }
{
    match p.form() {
        Form::One => 1,
        Form::Two => 2,
        Form::Turn => { if version == 0 { 1 } else { 2 } }
    }
}
