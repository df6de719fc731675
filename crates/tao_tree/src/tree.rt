//! The tree of a node: at most one bucket at each node, the first of the greatest version that was written there.
ghost use Rattle.std.specs.Prelude.{◌≡◌, ◌+◌, ◌*◌, ◌^◌, ◌<◌, ◌≤◌, ◌++◌, length, take, drop, IfOk};
ghost use Rattle.tao_base.specs.Limits.{IsShape, bucket_len};
ghost use Rattle.tao_base.specs.Tree.{node_count};
ghost use Rattle.tao_tree.specs.Nodes.{is_newer};

use std::alloc::Global;
use std::marker::Model;
use tao_base::{NoMemory, Params};

/// The buckets of all nodes, one behind another from node 1 on, and the version of each. A version is the one that a bucket came with, and
/// not the one in its header. Only `new` allocates.
#[derive(Debug, Drop)]
pub struct Tree {
    p: Params,
    bytes: Vec<u8>,
    versions: Vec<Option<u32>>,
}

impl Model for Tree {
    ghost use Rattle.tao_base.specs.Limits.{bucket_len};
    ghost use Rattle.tao_tree.specs.Nodes.{TreeState, IsLaidOut, held_in};

    ghost Value = { TreeState };

    ghost view = { λ t. record { shape = t.p; held = held_in (bucket_len t.p) t.bytes.items t.versions.items } };

    ghost invariant = { λ t. IsLaidOut t.p t.bytes.items t.versions.items };
}

impl Tree {
    ghost use Rattle.tao_tree.specs.Nodes.{empty_tree, version_at, bytes_at, applied, is_newer};

    /// A tree without buckets.
    pub fn new(alloc: Global, p: &Params) -> Result<Tree, NoMemory>
        ensures { IfOk result (λ tree. tree ≡ empty_tree p.now) }
    {
        let nodes = p.nodes() as usize;
        Ok(Tree {
            p: *p,
            bytes: vec![in alloc; 0; nodes * p.bucket_len() as usize]?,
            versions: vec![in alloc; None; nodes]?,
        })
    }

    /// The parameters that it was made for.
    pub fn params(&self) -> &Params
        ensures value { result.now ≡ self.now.shape }
        ensures shape { IsShape self.now.shape }
    {
        let _within = self.p.l();
        &self.p
    }

    /// Keeps the bucket where the node has none, or one of a smaller version, and says whether it did.
    pub fn apply(&mut self, version: u32, node: u32, bytes: &[u8]) -> bool
        requires low { 1 ≤ node }
        requires high { node ≤ node_count self.old.shape.l }
        requires len { length bytes.now ≡ bucket_len self.old.shape }
        ensures kept { result ≡ is_newer version (version_at self.old node) }
        ensures tree { self.new ≡ applied self.old version node bytes.now }
        ensures shape { self.new.shape ≡ self.old.shape }
    {
        let place = node as usize - 1;
        if !is_newer(version, self.versions[place]) {
            return false;
        }
        self.versions[place] = Some(version);
        write_at(&mut self.bytes, place * bytes.len(), bytes);
        true
    }

    /// Copies the node's bucket, or zeros where it has none.
    pub fn read(&self, node: u32, out: &mut [u8])
        requires low { 1 ≤ node }
        requires high { node ≤ node_count self.now.shape.l }
        requires len { length out.old ≡ bucket_len self.now.shape }
        ensures { out.new ≡ bytes_at self.now node }
    {
        let all = self.bytes.as_slice();
        let at = (node as usize - 1) * out.len();
        out.copy_from_slice(&all[at..at + out.len()]);
    }

    /// The version of the node's bucket, or None where it has none.
    pub fn version_at(&self, node: u32) -> Option<u32>
        requires low { 1 ≤ node }
        requires high { node ≤ node_count self.now.shape.l }
        ensures { result ≡ version_at self.now node }
    {
        self.versions[node as usize - 1]
    }
}

// Whether a version is greater than that of a node.
fn is_newer(version: u32, known: Option<u32>) -> bool
    ensures { result ≡ is_newer version known }
{
    match known {
        Some(known) => known < version,
        None => true,
    }
}

// Writes these bytes at a place of the list.
fn write_at(list: &mut [u8], at: usize, bytes: &[u8])
    requires { at + length bytes.now ≤ length list.old }
    ensures { list.new ≡ take at list.old ++ bytes.now ++ drop (at + length bytes.now) list.old }
{
    list[at..at + bytes.len()].copy_from_slice(bytes);
}
