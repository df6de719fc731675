//! The header of a bucket, which is in clear: the format, three zero bytes, the node, the version and the nonce.
ghost use Rattle.std.specs.Prelude.{◌≡◌, ◌^◌, ◌<◌, ◌≤◌, length, OnOk};
ghost use Rattle.std.specs.Result.{result_err};
ghost use Rattle.tao_base.specs.Limits.{IsShape, bucket_len};
ghost use Rattle.tao_base.specs.Links.{header_node};
ghost use Rattle.tao_bucket.specs.Encoding.{header};
ghost use Rattle.tao_bucket.specs.Reading.{header_version, header_nonce, header_fault};

use tao_base::{BucketFault, Params};

/// The node in a bucket's header.
pub fn node_of(bytes: &[u8]) -> u32
    requires { 20 ≤ length bytes.now }
    ensures { result ≡ header_node bytes.now }
{
    u32::from_be_bytes([bytes[4], bytes[5], bytes[6], bytes[7]])
}

/// The version in a bucket's header.
pub fn version_of(bytes: &[u8]) -> u32
    requires { 20 ≤ length bytes.now }
    ensures { result ≡ header_version bytes.now }
{
    u32::from_be_bytes([bytes[8], bytes[9], bytes[10], bytes[11]])
}

/// The nonce in a bucket's header.
pub fn nonce_of(bytes: &[u8]) -> u64
    requires { 20 ≤ length bytes.now }
    ensures { result ≡ header_nonce bytes.now }
{
    u64::from_be_bytes([
        bytes[12], bytes[13], bytes[14], bytes[15], bytes[16], bytes[17], bytes[18], bytes[19],
    ])
}

pub(crate) fn header_bytes(format: u8, node: u32, version: u32, nonce: u64) -> [u8; 20]
    ensures value { result ≡ header format node version nonce }
    ensures node { node < 2 ^ 32 }
    ensures version { version < 2 ^ 32 }
    ensures nonce { nonce < 2 ^ 64 }
{
    let [w0, w1, w2, w3] = node.to_be_bytes();
    let [v0, v1, v2, v3] = version.to_be_bytes();
    let [n0, n1, n2, n3, n4, n5, n6, n7] = nonce.to_be_bytes();
    [
        format, 0, 0, 0, w0, w1, w2, w3, v0, v1, v2, v3, n0, n1, n2, n3, n4, n5, n6, n7,
    ]
}

pub(crate) fn check_header(
    p: &Params,
    want: u32,
    format: u8,
    bytes: &[u8],
) -> Result<(), BucketFault>
    ensures fault { result_err result ≡ header_fault p.now want format bytes.now }
    ensures len { OnOk result (length bytes.now ≡ bucket_len p.now) }
    ensures shape { IsShape p.now }
{
    if bytes.len() != p.bucket_len() as usize {
        return Err(BucketFault::Length);
    }
    if bytes[0] != format {
        return Err(BucketFault::Format);
    }
    if bytes[1] != 0 || bytes[2] != 0 || bytes[3] != 0 {
        return Err(BucketFault::Padding);
    }
    if node_of(bytes) != want {
        return Err(BucketFault::Node);
    }
    Ok(())
}
