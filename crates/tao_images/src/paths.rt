//! The buckets of a path, read from the root on against what is known of their nodes.
ghost use Rattle.std.specs.Prelude.{◌≡◌, ◌+◌, ◌*◌, ◌^◌, ◌<◌, ◌≤◌, ℕ, Bool, true, not, List, Some, length, map, take, All, IfOk, OnOk};
ghost use Rattle.std.specs.Result.{result_err};
ghost use Rattle.tao_base.specs.Limits.{bucket_len};
ghost use Rattle.tao_base.specs.Tree.{node_at, node_count};
ghost use Rattle.tao_bucket.specs.Reading.{read_bucket};
ghost use Rattle.tao_images.specs.Paths.{piece, refusal_at, path_refusal, buckets_read, IsRoom, held_in};

use crate::nodes::{Refused, read_node};
use tao_base::{Params, path_node};
use tao_bucket::Room;

/// What is known of the nodes of a tree before their bytes are read.
pub trait Known {
    /// The height of the tree.
    ghost height: { Self → ℕ };

    /// Which nodes need no reading.
    ghost skipped: { Self → ℕ → Bool };

    /// The version of each node's latest write.
    ghost version: { Self → ℕ → ℕ };

    /// The tag of each node's latest write.
    ghost tag: { Self → ℕ → List ℕ };

    fn is_skipped(&self, node: u32) -> bool
        requires low { 1 ≤ node }
        requires high { node ≤ node_count (height self.now) }
        ensures { result ≡ skipped self.now node };

    fn version(&self, node: u32) -> u32
        requires low { 1 ≤ node }
        requires high { node ≤ node_count (height self.now) }
        ensures { result ≡ version self.now node };

    fn tag(&self, node: u32) -> &[u8; 32]
        requires low { 1 ≤ node }
        requires high { node ≤ node_count (height self.now) }
        ensures { result.now ≡ tag self.now node };
}

/// Reads the buckets of the path into the first rooms, and tells how many. Nodes that need no reading are skipped.
pub fn read_path<K: Known>(
    p: &Params,
    key: &[u8; 32],
    known: &K,
    leaf: u32,
    path: &[u8],
    rooms: &mut [Room],
) -> Result<usize, Refused>
    requires height { K.height known.now ≡ p.now.l }
    requires leaf { leaf < 2 ^ p.now.l }
    requires path { length path.now ≡ (p.now.l + 1) * bucket_len p.now }
    requires enough { p.now.l < length rooms.old }
    requires rooms { All (IsRoom p.now) rooms.old }
    ensures fault { result_err result ≡ path_refusal key.now p.now (K.skipped known.now) (K.version known.now) (K.tag known.now) leaf path.now }
    ensures read { IfOk result (λ count. map held_in (take count rooms.new) ≡ map Some (buckets_read key.now p.now (K.skipped known.now) leaf path.now)) }
    ensures within { IfOk result (λ count. count ≤ p.now.l + 1) }
    ensures rooms { All (IsRoom p.now) rooms.new }
{
    let mut count = 0;
    for depth in 0..p.l() + 1 {
        if read_depth(p, key, known, leaf, depth, path, &mut rooms[count])? {
            count += 1;
        }
    }
    Ok(count)
}

// Reads the bucket at this depth into the room, and tells whether its node needed it.
#[tactic(auto, unfolding(crate::specs::Paths::refusal_at))]
fn read_depth<K: Known>(
    p: &Params,
    key: &[u8; 32],
    known: &K,
    leaf: u32,
    depth: u32,
    path: &[u8],
    room: &mut Room,
) -> Result<bool, Refused>
    requires height { K.height known.now ≡ p.now.l }
    requires leaf { leaf < 2 ^ p.now.l }
    requires depth { depth ≤ p.now.l }
    requires path { length path.now ≡ (p.now.l + 1) * bucket_len p.now }
    requires room { IsRoom p.now room.old }
    ensures fault { result_err result ≡ refusal_at key.now p.now (K.skipped known.now) (K.version known.now) (K.tag known.now) leaf path.now depth }
    ensures skipped { IfOk result (λ is_read. is_read ≡ not (K.skipped known.now (node_at p.now.l leaf depth))) }
    ensures value { IfOk result (λ is_read. is_read ≡ true → room.new.held ≡ Some (read_bucket key.now p.now (piece p.now path.now depth))) }
    ensures room { IsRoom p.now room.new }
{
    let node = path_node(p, leaf, depth);
    if known.is_skipped(node) {
        return Ok(false);
    }
    let bytes = piece_of(p, path, depth);
    read_node(
        p,
        key,
        node,
        known.version(node),
        known.tag(node),
        bytes,
        room,
    )?;
    Ok(true)
}

// The bucket at this depth of a path.
fn piece_of<'a>(p: &Params, path: &'a [u8], depth: u32) -> &'a [u8]
    requires depth { depth ≤ p.now.l }
    requires path { length path.now ≡ (p.now.l + 1) * bucket_len p.now }
    ensures { result.now ≡ piece p.now path.now depth }
{
    let len = p.bucket_len() as usize;
    let at = depth as usize * len;
    &path[at..at + len]
}
