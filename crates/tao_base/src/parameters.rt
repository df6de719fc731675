//! The parameters of a store.
ghost use Rattle.std.specs.Prelude.{◌≡◌, ◌+◌, ◌*◌, ◌≤◌};
ghost use Rattle.tao_base.specs.Tree.{node_count};
ghost use Rattle.tao_base.specs.Limits.{IsShape, bucket_len, session_limit, shape_of, in_form_or_fault, slots_len, tag_len};

use std::error::Error;
use std::fmt;
use std::marker::Model;

/// How buckets are written: untagged; tagged; or mixed, the load untagged and every write-back tagged, so that use turns an old tree
/// over.
#[derive(Clone, Copy, Debug, PartialEq, Eq)]
pub enum Form {
    One,
    Two,
    Turn,
}

/// The first limit that the numbers break.
#[derive(Clone, Copy, Debug, PartialEq, Eq)]
pub enum ParamFault {
    /// The height is 1 to 16.
    Height = 1,
    /// A bucket has 1 to 8 blocks.
    BucketSize = 2,
    /// A block has 4 to 4096 bytes, a multiple of 4.
    BlockSize = 3,
    /// There are 1 to z * 2^l blocks.
    Count = 4,
    /// The period is 1 to 64.
    Period = 5,
    /// All buckets together have at most 2^29 bytes.
    TreeTooLarge = 6,
}

impl fmt::Display for ParamFault {
    fn fmt<W: fmt::Write>(&self, f: &mut fmt::Formatter<W>) -> fmt::Result {
        match self {
            ParamFault::Height => write!(f, "the height is not 1 to 16"),
            ParamFault::BucketSize => write!(f, "a bucket does not have 1 to 8 blocks"),
            ParamFault::BlockSize => write!(
                f,
                "a block does not have 4 to 4096 bytes, a multiple of 4"
            ),
            ParamFault::Count => write!(f, "there are not 1 to z * 2^l blocks"),
            ParamFault::Period => write!(f, "the period is not 1 to 64"),
            ParamFault::TreeTooLarge => write!(f, "the tree has more than 2^29 bytes"),
        }
    }
}

impl Error for ParamFault {}

/// Parameters within all limits: a tree of height `l`, buckets of `z` blocks of `b` bytes, `n` blocks, a write-back after every `k`-th
/// fetched path, and the form of buckets.
#[derive(Clone, Copy, Debug, PartialEq, Eq)]
pub struct Params {
    l: u32,
    z: u32,
    b: u32,
    n: u32,
    k: u32,
    form: Form,
}

impl Model for Params {
    ghost use Rattle.tao_base.specs.Limits.{Shape, IsShape, shape};

    ghost Value = { Shape };

    ghost view = { λ p. shape p.l p.z p.b p.n p.k p.form };

    ghost invariant = { λ p. IsShape (shape p.l p.z p.b p.n p.k p.form) };

    ghost inverse = { λ s. record { l = s.l; z = s.z; b = s.b; n = s.n; k = s.k; form = s.form } };
}

impl Params {
    /// Parameters of form One, or the first limit that the numbers break.
    pub fn new(l: u32, z: u32, b: u32, n: u32, k: u32) -> Result<Params, ParamFault>
        ensures { result ≡ shape_of l z b n k }
    {
        if l < 1 || 16 < l {
            return Err(ParamFault::Height);
        }
        if z < 1 || 8 < z {
            return Err(ParamFault::BucketSize);
        }
        if b < 4 || 4096 < b || 0 < b % 4 {
            return Err(ParamFault::BlockSize);
        }
        if n < 1 || z << l < n {
            return Err(ParamFault::Count);
        }
        if k < 1 || 64 < k {
            return Err(ParamFault::Period);
        }
        if MOST_TREE_BYTES < tree_bytes(l, z, b, 0) {
            return Err(ParamFault::TreeTooLarge);
        }
        Ok(Params {
            l,
            z,
            b,
            n,
            k,
            form: Form::One,
        })
    }

    /// The same parameters in another form, whose buckets may be too long.
    pub fn with_form(self, form: Form) -> Result<Params, ParamFault>
        ensures { result ≡ in_form_or_fault self form }
    {
        if MOST_TREE_BYTES < tree_bytes(self.l, self.z, self.b, tag_bytes(form)) {
            return Err(ParamFault::TreeTooLarge);
        }
        Ok(Params {
            l: self.l,
            z: self.z,
            b: self.b,
            n: self.n,
            k: self.k,
            form,
        })
    }

    /// The height of the tree.
    pub fn l(&self) -> u32
        ensures value { result ≡ self.now.l }
        ensures shape { IsShape self.now }
    {
        self.l
    }

    /// The blocks of a bucket.
    pub fn z(&self) -> u32
        ensures value { result ≡ self.now.z }
        ensures shape { IsShape self.now }
    {
        self.z
    }

    /// The bytes of a block.
    pub fn b(&self) -> u32
        ensures value { result ≡ self.now.b }
        ensures shape { IsShape self.now }
    {
        self.b
    }

    /// The number of blocks.
    pub fn n(&self) -> u32
        ensures value { result ≡ self.now.n }
        ensures shape { IsShape self.now }
    {
        self.n
    }

    /// After how many fetched paths a write-back comes.
    pub fn k(&self) -> u32
        ensures value { result ≡ self.now.k }
        ensures shape { IsShape self.now }
    {
        self.k
    }

    pub fn form(&self) -> Form
        ensures value { result ≡ self.now.form }
        ensures shape { IsShape self.now }
    {
        self.form
    }

    /// The number of nodes of the tree.
    pub fn nodes(&self) -> u32
        ensures value { result ≡ node_count self.now.l }
        ensures shape { IsShape self.now }
    {
        (1 << (self.l + 1)) - 1
    }

    /// The bytes of a bucket.
    pub fn bucket_len(&self) -> u32
        ensures value { result ≡ bucket_len self.now }
        ensures shape { IsShape self.now }
    {
        20 + self.z * (4 + self.b) + tag_bytes(self.form)
    }

    /// The most arrivals of one session.
    pub fn session_limit(&self) -> u32
        ensures value { result ≡ session_limit self.now }
        ensures shape { IsShape self.now }
    {
        ((1 << 31) / (2 * self.z * (self.l + 1) * (self.b + 8))).min(65_536)
    }
}

const MOST_TREE_BYTES: u64 = 1 << 29;

// The bytes of the tag behind a bucket.
fn tag_bytes(form: Form) -> u32
    ensures { result ≡ tag_len form }
{
    match form {
        Form::One => 0,
        Form::Two | Form::Turn => 32,
    }
}

// The bytes of all buckets of a tree. At the greatest parameters the product is above 2^32.
fn tree_bytes(l: u32, z: u32, b: u32, tag: u32) -> u64
    requires height { l ≤ 16 }
    requires bucket { z ≤ 8 }
    requires block { b ≤ 4096 }
    requires tag { tag ≤ 32 }
    ensures { result ≡ node_count l * (slots_len z b + tag) }
{
    let nodes = (1u64 << (l + 1)) - 1;
    nodes * u64::from(20 + z * (4 + b) + tag)
}
