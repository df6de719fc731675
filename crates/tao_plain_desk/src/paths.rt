//! The buckets of a path: fetched from the server, stamped for a write-back, and stored there.
ghost use Rattle.std.specs.Prelude.{◌≡◌, ◌+◌, ◌^◌, ◌<◌, ◌≤◌, length, map, All};
ghost use Rattle.tao_base.specs.Tree.{node_count, path};
ghost use Rattle.tao_model.specs.Trace.{nodes_in};
ghost use Rattle.tao_plain_desk.specs.Quiet.{AreEmpty, AreStamped, Stores, bucket_at, stamped};

use tao_base::{Bucket, Buckets, Params, path_node};

// Fetches the buckets of a path into the list, root first.
#[tactic(auto, using(tao_base::proofs::Fronts::with_front_all))]
pub fn gather_to(p: &Params, leaf: u32, server: &[Bucket], buckets: &mut Buckets)
    requires leaf { leaf < 2 ^ p.now.l }
    requires server { length server.now ≡ node_count p.now.l }
    requires server_empty { AreEmpty server.now }
    requires buckets { length buckets.old ≡ p.now.l + 1 }
    requires empty { AreEmpty buckets.old }
    ensures { buckets.new ≡ map (bucket_at server.now) (path p.now.l leaf) }
{
    gather(p, leaf, server, buckets.as_mut_slice());
}

// Gives the buckets of the list a version, and consecutive nonces.
#[tactic(auto, using(tao_base::proofs::Fronts::with_front_all))]
pub fn stamp_all(buckets: &mut Buckets, version: u32, nonce: u64)
    requires small { nonce + length buckets.old < 2 ^ 64 }
    requires empty { AreEmpty buckets.old }
    ensures stamped { AreStamped (nodes_in buckets.old) version nonce buckets.new }
    ensures len { length buckets.new ≡ length buckets.old }
{
    stamp(buckets.as_mut_slice(), version, nonce);
}

// Stores buckets at their nodes in the list of all.
#[tactic(auto, using(tao_base::proofs::Fronts::with_front_all))]
pub fn store_to(buckets: &[Bucket], server: &mut Buckets)
    requires nodes { All (λ bucket. bucket.node ≤ length server.old) buckets.now }
    requires low { All (λ bucket. 1 ≤ bucket.node) buckets.now }
    requires empty { AreEmpty buckets.now }
    requires server_empty { AreEmpty server.old }
    ensures stores { Stores (length server.old) buckets.now (bucket_at server.old) (bucket_at server.new) }
    ensures len { length server.new ≡ length server.old }
{
    store(buckets, server.as_mut_slice());
}

// The buckets of a path, root first.
fn gather(p: &Params, leaf: u32, server: &[Bucket], buckets: &mut [Bucket])
    requires leaf { leaf < 2 ^ p.now.l }
    requires server { length server.now ≡ node_count p.now.l }
    requires server_empty { AreEmpty server.now }
    requires buckets { length buckets.old ≡ p.now.l + 1 }
    requires empty { AreEmpty buckets.old }
    ensures { buckets.new ≡ map (bucket_at server.now) (path p.now.l leaf) }
{
    for depth in 0..p.l() + 1 {
        let node = path_node(p, leaf, depth);
        let bucket = &mut buckets[depth as usize];
        copy_header(&server[(node - 1) as usize], bucket);
    }
}

// Gives the buckets a version, and consecutive nonces.
fn stamp(buckets: &mut [Bucket], version: u32, nonce: u64)
    requires small { nonce + length buckets.old < 2 ^ 64 }
    requires empty { AreEmpty buckets.old }
    ensures { AreStamped (nodes_in buckets.old) version nonce buckets.new }
{
    let mut next = nonce;
    for i in 0..buckets.len() {
        let bucket = &mut buckets[i];
        stamp_one(bucket, version, next);
        next += 1;
    }
}

fn stamp_one(bucket: &mut Bucket, version: u32, nonce: u64)
    ensures { bucket.new ≡ stamped bucket.old version nonce }
{
    bucket.version = version;
    bucket.nonce = nonce;
}

// Stores buckets at their nodes.
fn store(buckets: &[Bucket], server: &mut [Bucket])
    requires nodes { All (λ bucket. bucket.node ≤ length server.old) buckets.now }
    requires low { All (λ bucket. 1 ≤ bucket.node) buckets.now }
    requires empty { AreEmpty buckets.now }
    requires server_empty { AreEmpty server.old }
    ensures { Stores (length server.old) buckets.now (bucket_at server.old) (bucket_at server.new) }
{
    for i in (0..buckets.len()).rev() {
        let bucket = &buckets[i];
        let place = &mut server[(bucket.node - 1) as usize];
        copy_header(bucket, place);
    }
}

// Copies all of a bucket but its entries: neither has any.
fn copy_header(from: &Bucket, to: &mut Bucket)
    requires { to.old.entries ≡ from.now.entries }
    ensures { to.new ≡ from.now }
{
    to.node = from.node;
    to.version = from.version;
    to.nonce = from.nonce;
}
