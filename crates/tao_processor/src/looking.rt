//! Answers of the server, read against what is known of their nodes.
ghost use Rattle.std.specs.Prelude.{◌≡◌, ◌||◌, ◌≤◌};
ghost use Rattle.std.specs.List.{slice_index_or};
ghost use Rattle.tao_base.specs.Tree.{node_count};
ghost use Rattle.tao_holdings.specs.Holding.{is_held, version_in};
ghost use Rattle.tao_images.specs.Answers.{is_met as the_met};

use tao_base::Params;
use tao_holdings::Holdings;
use tao_images::Known;

/// What is known of the nodes for a fetch: those that are held need no reading.
#[derive(Drop)]
pub(crate) struct KnownNodes<'a> {
    pub p: Params,
    pub holdings: &'a Holdings,
    pub tags: &'a [[u8; 32]],
    // for nodes without a place
    pub no_tag: [u8; 32],
}

impl<'a> Known for KnownNodes<'a> {
    ghost height = { λ k. k.p.l };

    ghost skipped = { λ k node. is_held k.holdings.now node };

    ghost version = { λ k node. version_in k.holdings.now node };

    ghost tag = { λ k node. slice_index_or k.tags.now node k.no_tag };

    fn is_skipped(&self, node: u32) -> bool {
        self.holdings.is_resident(node)
    }

    fn version(&self, node: u32) -> u32 {
        self.holdings.last_version(node)
    }

    fn tag(&self, node: u32) -> &[u8; 32] {
        match self.tags.get(node as usize) {
            Some(tag) => tag,
            None => &self.no_tag,
        }
    }
}

/// What is known for the closing scan at a leaf: nodes that the path of a smaller leaf has need no reading either.
#[derive(Drop)]
pub(crate) struct NewNodes<'a> {
    pub known: KnownNodes<'a>,
    pub leaf: u32,
}

impl<'a> Known for NewNodes<'a> {
    ghost height = { λ k. k.known.p.l };

    ghost skipped = { λ k node. is_held k.known.holdings.now node || the_met k.known.p.l k.leaf node };

    ghost version = { λ k node. version_in k.known.holdings.now node };

    ghost tag = { λ k node. slice_index_or k.known.tags.now node k.known.no_tag };

    fn is_skipped(&self, node: u32) -> bool {
        self.known.is_skipped(node) || is_met(&self.known.p, self.leaf, node)
    }

    fn version(&self, node: u32) -> u32 {
        self.known.version(node)
    }

    fn tag(&self, node: u32) -> &[u8; 32] {
        self.known.tag(node)
    }
}

#[tactic(auto, using(crate::proofs::MetNodes::depth_low, crate::proofs::MetNodes::first_low, crate::proofs::MetNodes::met_first))]
// Whether the path of a smaller leaf has the node: that of the first leaf below it.
fn is_met(p: &Params, leaf: u32, node: u32) -> bool
    requires low { 1 ≤ node }
    requires high { node ≤ node_count p.now.l }
    ensures { result ≡ the_met p.now.l leaf node }
{
    let first = node << (p.l() - node.ilog2());
    first - (1 << p.l()) < leaf
}
