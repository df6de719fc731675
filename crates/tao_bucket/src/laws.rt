//! What holds of every encoding.
ghost use Rattle.std.specs.Prelude.{◌≡◌, ◌↔◌, ◌<◌, ◌^◌, ◌++◌, ℕ, List, None, length, drop, slice_index};
ghost use Rattle.tao_base.specs.Limits.{Shape, IsShape, bucket_len, slots_len};
ghost use Rattle.tao_base.specs.Links.{header_node};
ghost use Rattle.tao_base.specs.declared.storage.Bucket.{Bucket};
ghost use Rattle.tao_base.specs.Buckets.{AreInForm, IsInForm};
ghost use Rattle.tao_bucket.specs.Encoding.{IsWritten, Encodes, encoded, tag_of};
ghost use Rattle.tao_bucket.specs.Reading.{bucket_fault};

/// A bucket in form has one encoding in each format.
pub fn one_encoding()
    ensures { (key : List ℕ) (s : Shape) (format : ℕ) (bucket : Bucket) (bytes : List ℕ) → IsShape s → IsInForm s bucket → bucket.version < 2 ^ 32 → bucket.nonce < 2 ^ 64
        → Encodes key s format bucket bytes ↔ (bytes ≡ encoded key s format bucket) }
{}

/// An encoding is as long as a bucket, and its header has the bucket's node, whatever follows it.
pub fn encoding_names_its_node()
    ensures { (key : List ℕ) (s : Shape) (format : ℕ) (bucket : Bucket) → IsShape s → IsInForm s bucket
        → (length (encoded key s format bucket) ≡ bucket_len s) × ((rest : List ℕ) → header_node (encoded key s format bucket ++ rest) ≡ bucket.node) }
{}

/// In format 2 the bucket's tag stands behind the slots.
pub fn tag_follows_slots()
    ensures { (key : List ℕ) (s : Shape) (bucket : Bucket) → IsWritten s.form 2 → AreInForm s bucket.entries
        → drop (slots_len s.z s.b) (encoded key s 2 bucket) ≡ tag_of key s bucket }
{}

/// Bytes encode at most one bucket.
pub fn one_bucket()
    ensures { (key : List ℕ) (s : Shape) (format : ℕ) (left right : Bucket) (bytes : List ℕ) → IsShape s
        → Encodes key s format left bytes → Encodes key s format right bytes → left ≡ right }
{}

/// Bytes have no fault exactly where they encode a bucket of the wanted node.
pub fn no_fault_where_encoded()
    ensures { (key : List ℕ) (s : Shape) (want format : ℕ) (bytes : List ℕ) → IsShape s → ((i : ℕ) → slice_index bytes i < 256)
        → (bucket_fault key s want format bytes ≡ None) ↔ ((bucket : Bucket) × (bucket.node ≡ want) × Encodes key s format bucket bytes) }
{}
