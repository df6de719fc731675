//! What stands behind the slots of a bucket.
ghost use Rattle.std.specs.Prelude.{◌≡◌, ◌≤◌, length, take, drop};
ghost use Rattle.std.specs.Result.{result_err};
ghost use Rattle.tao_base.specs.Limits.{slots_len, bucket_len, tag_len};
ghost use Rattle.tao_bucket.specs.Encoding.{tail, IsWritten};
ghost use Rattle.tao_base.specs.Transfers.{same};
ghost use Rattle.tao_bucket.specs.Reading.{tail_fault};

use tao_base::{BucketFault, Form, Params, are_same};
use tao_tag::{hmac, tag_key};

/// The bytes of a bucket before its tail.
pub(crate) fn body_len(p: &Params) -> usize
    ensures value { result ≡ slots_len p.now.z p.now.b }
    ensures bound { result ≤ bucket_len p.now }
{
    20 + p.z() as usize * (4 + p.b() as usize)
}

/// What stands behind the slots of a bucket: its tag, or the place of one; nothing in an untagged store.
pub fn tail_of<'a>(p: &Params, bytes: &'a [u8]) -> &'a [u8]
    requires { length bytes.now ≡ bucket_len p.now }
    ensures { result.now ≡ drop (slots_len p.now.z p.now.b) bytes.now }
{
    &bytes[body_len(p)..]
}

/// Writes what belongs behind this body.
pub(crate) fn write_tail(p: &Params, key: &[u8; 32], format: u8, body: &[u8], out: &mut [u8])
    requires format { IsWritten p.now.form format }
    requires len { length out.old ≡ tag_len p.now.form }
    ensures { out.new ≡ tail key.now p.now.form format body.now }
{
    match p.form() {
        Form::One => {}
        Form::Two => out.copy_from_slice(&hmac(&tag_key(key), body)),
        Form::Turn => {
            if format == 2 {
                out.copy_from_slice(&hmac(&tag_key(key), body));
            } else {
                out.copy_from_slice(&[0; 32]);
            }
        }
    }
}

/// Checks what stands behind the body.
pub(crate) fn check_tail(
    p: &Params,
    key: &[u8; 32],
    format: u8,
    bytes: &[u8],
) -> Result<(), BucketFault>
    requires { length bytes.now ≡ bucket_len p.now }
    ensures { result_err result ≡ tail_fault key.now p.now format bytes.now }
{
    let (body, found) = bytes.split_at(body_len(p));
    if is_tail(p, key, format, body, found) {
        Ok(())
    } else {
        Err(BucketFault::Tag)
    }
}

// Whether this belongs behind this body.
fn is_tail(p: &Params, key: &[u8; 32], format: u8, body: &[u8], found: &[u8]) -> bool
    requires { length found.now ≡ tag_len p.now.form }
    ensures { result ≡ same found.now (tail key.now p.now.form format body.now) }
{
    match p.form() {
        Form::One => true,
        Form::Two => are_same(found, &hmac(&tag_key(key), body)),
        Form::Turn => {
            if format == 2 {
                are_same(found, &hmac(&tag_key(key), body))
            } else {
                are_same(found, &[0; 32])
            }
        }
    }
}
