//! What holds of every refusal, order and bucket.
ghost use Rattle.std.specs.Prelude.{◌≡◌, ◌↔◌, ◌≤◌, ◌<◌, ◌^◌, ℕ, Bool, false, List, Some, None, length, drop, All};
ghost use Rattle.std.specs.List.{slice_index_or};
ghost use Rattle.tao_base.specs.Limits.{Shape, IsShape, slots_len};
ghost use Rattle.tao_base.specs.Links.{FitsLinks, order_limit};
ghost use Rattle.tao_base.specs.Tree.{node_at};
ghost use Rattle.tao_base.specs.declared.storage.Bucket.{Bucket};
ghost use Rattle.tao_base.specs.declared.storage.Order.{Order};
ghost use Rattle.tao_base.specs.Buckets.{IsInForm};
ghost use Rattle.tao_bucket.specs.Encoding.{format_of, tag_of};
ghost use Rattle.tao_model.specs.Residence.{HasEntriesOf};
ghost use Rattle.tao_images.specs.declared.nodes.Refused.{Refused};
ghost use Rattle.tao_images.specs.Honesty.{IsUnforged, HasTagOf};
ghost use Rattle.tao_images.specs.Nodes.{IsRefusalOf};
ghost use Rattle.tao_images.specs.Orders.{IsOrderOf, IssuedStays};
ghost use Rattle.tao_images.specs.Paths.{AreBytes, piece, path_refusal, buckets_read, AreReadFrom, HoldsLatest, IsKnownAlike};

/// A path is not refused whose nodes, but for those that are skipped, hold buckets of their latest writes.
pub fn nothing_refused()
    ensures { (key : List ℕ) (s : Shape) (skipped : ℕ → Bool) (version : ℕ → ℕ) (tag : ℕ → List ℕ) (leaf : ℕ) (path : List ℕ) → IsShape s
        → HoldsLatest key s skipped version tag leaf path → path_refusal key s skipped version tag leaf path ≡ None }
{}

/// What is read from a path that isn't refused.
pub fn read_means()
    ensures { (key : List ℕ) (s : Shape) (skipped : ℕ → Bool) (version : ℕ → ℕ) (tag : ℕ → List ℕ) (leaf : ℕ) (path : List ℕ) → leaf < 2 ^ s.l
        → AreBytes path → path_refusal key s skipped version tag leaf path ≡ None
        → AreReadFrom key s skipped version tag leaf path (buckets_read key s skipped leaf path) }
{}

/// A refusal is of a node of the path that isn't skipped.
pub fn refusal_means()
    ensures { (key : List ℕ) (s : Shape) (skipped : ℕ → Bool) (version : ℕ → ℕ) (tag : ℕ → List ℕ) (leaf : ℕ) (path : List ℕ) (refused : Refused)
        → path_refusal key s skipped version tag leaf path ≡ Some refused
        → (d : ℕ) × (d ≤ s.l) × (skipped (node_at s.l leaf d) ≡ false) × IsRefusalOf (node_at s.l leaf d) (version (node_at s.l leaf d)) refused }
{}

/// Of two ways to know the same of all nodes, each refuses and reads what the other does.
pub fn known_alike()
    ensures { (key : List ℕ) (s : Shape) (skipped skipped' : ℕ → Bool) (version version' : ℕ → ℕ) (tag tag' : ℕ → List ℕ) (leaf : ℕ) (path : List ℕ) → leaf < 2 ^ s.l
        → IsKnownAlike s skipped skipped' version version' tag tag'
        → (path_refusal key s skipped version tag leaf path ≡ path_refusal key s skipped' version' tag' leaf path)
        × (buckets_read key s skipped leaf path ≡ buckets_read key s skipped' leaf path) }
{}

/// Each link of the store takes an order of not too many buckets in form.
pub fn orders_fit()
    ensures { (key : List ℕ) (s : Shape) (version nonce : ℕ) (buckets : List Bucket) (order : Order) → IsShape s
        → IsOrderOf key s version nonce buckets order → All (IsInForm s) buckets → length buckets ≤ order_limit s → FitsLinks s order }
{}

/// The tag of each bucket of an order in format 2 stands behind its slots.
pub fn orders_have_tags()
    ensures { (key : List ℕ) (s : Shape) (version nonce : ℕ) (buckets : List Bucket) (order : Order) (i : ℕ) (bucket : Bucket) → IsShape s
        → IsOrderOf key s version nonce buckets order → All (IsInForm s) buckets → format_of s.form version ≡ 2 → i < length buckets → bucket ≡ slice_index_or buckets i bucket
        → drop (slots_len s.z s.b) (piece s order.image i) ≡ tag_of key s bucket }
{}

/// An order of a session stays one with more events.
pub fn issued_stays()
    ensures { IssuedStays }
{}

/// A bucket that is no forgery and has the tag of the written one has its entries.
pub fn unforged_is_honest()
    ensures { (key : List ℕ) (s : Shape) (bucket written : Bucket) → IsUnforged key s bucket written → HasTagOf key s bucket written → HasEntriesOf bucket written }
{}
