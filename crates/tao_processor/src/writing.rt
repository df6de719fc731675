//! Records write-backs.
ghost use Rattle.std.specs.Prelude.{◌≡◌, ℕ, ◌+◌, ◌-◌, ◌^◌, ◌<◌, ◌≤◌, true, [], length, All};
ghost use Rattle.std.specs.List.Sorted.{IsStrictlyIncreasing};
ghost use Rattle.tao_base.specs.declared.session.Event.TheVariants.{Issue};
ghost use Rattle.tao_base.specs.Buckets.{IsInForm};
ghost use Rattle.tao_record.specs.State.{added, issue_len};
ghost use Rattle.tao_holdings.specs.Holding.{is_held, contents_in};
ghost use Rattle.tao_images.specs.Orders.{IsOrderOf, IsOrderRoom};
ghost use Rattle.tao_processor.specs.Steps.{IsNodeOf, IsEmpty, stamps, written_of, HoldsAgain};

use tao_base::{Bucket, Order, Params};
use tao_holdings::Holdings;
use tao_images::write_order;
use tao_record::Record;

/// Records a write-back of these nodes with what they hold, and writes its order. The buckets of `written` are scratch space, empty before and after.
pub(crate) fn write_back(
    p: &Params,
    key: &[u8; 32],
    session: &mut Record,
    holdings: &mut Holdings,
    written: &mut [Bucket],
    nodes: &[u32],
    version: u32,
    nonce: u64,
    order: &mut Order,
)
    requires p { p.now ≡ holdings.old.shape }
    requires room { IsOrderRoom p.now (length nodes.now) order.old }
    requires spare { 0 < session.old.issues }
    requires shape { holdings.old.shape ≡ session.old.history.opening.shape }
    requires count { length nodes.now ≤ length written.old }
    requires few { length nodes.now ≤ issue_len holdings.old.shape }
    requires rising { IsStrictlyIncreasing nodes.now }
    requires tree { All (IsNodeOf holdings.old.shape) nodes.now }
    requires held { All (λ node. is_held holdings.old node ≡ true) nodes.now }
    requires empty { All IsEmpty written.old }
    requires fits { nonce + length nodes.now < 2 ^ 64 }
    ensures recorded { session.new ≡ record (added session.old (Issue version nonce (written_of (contents_in holdings.old) nodes.now version nonce))) { issues = session.old.issues - 1 } }
    ensures in_form { All (IsInForm holdings.old.shape) (written_of (contents_in holdings.old) nodes.now version nonce) }
    ensures order { IsOrderOf key.now p.now version nonce (written_of (contents_in holdings.old) nodes.now version nonce) order.new }
    ensures holdings { HoldsAgain holdings.old holdings.new }
    ensures empty { All IsEmpty written.new }
    ensures count { length written.new ≡ length written.old }
{
    let (front, _) = written.split_at_mut(nodes.len());
    stamp(front, nodes, version, nonce);
    holdings.exchange(front);
    session.add_issue(version, nonce, front);
    write_order(p, key, version, nonce, front, order);
    holdings.exchange(front);
}

// Makes these the empty buckets of the nodes.
fn stamp(buckets: &mut [Bucket], nodes: &[u32], version: u32, nonce: u64)
    requires count { length buckets.old ≡ length nodes.now }
    requires empty { All IsEmpty buckets.old }
    requires fits { nonce + length nodes.now < 2 ^ 64 }
    ensures { buckets.new ≡ stamps nodes.now version nonce }
{
    for i in 0..nodes.len() {
        let bucket = &mut buckets[i];
        bucket.node = nodes[i];
        bucket.version = version;
        bucket.nonce = nonce + i as u64;
    }
}
