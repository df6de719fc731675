//! A tree alone.

use super::{LEN, small};
use crate::Tree;
use std::process::Abort;
use std::test::Fail;

// A bucket of these bytes is kept at the node, or isn't.
fn check_apply(rt: &impl Abort, tree: &mut Tree, version: u32, node: u32, byte: u8, kept: bool) {
    let p = *tree.params();
    let bytes = [byte; LEN];
    assert!(rt; 1 <= node && node <= p.nodes() && LEN == p.bucket_len() as usize);
    assert!(rt; tree.apply(version, node, &bytes) == kept);
}

// The node has this version, and all its bytes are this one.
fn check_node(rt: &impl Abort, tree: &Tree, node: u32, version: Option<u32>, byte: u8) {
    let p = tree.params();
    let mut bytes = [9; LEN];
    assert!(rt; 1 <= node && node <= p.nodes() && LEN == p.bucket_len() as usize);
    tree.read(node, &mut bytes);
    assert!(rt; bytes == [byte; LEN]);
    assert!(rt; tree.version_at(node) == version);
}

pub(crate) fn check_version(rt: &impl Abort, tree: &Tree, node: u32, version: u32) {
    assert!(rt; 1 <= node && node <= tree.params().nodes());
    assert!(rt; tree.version_at(node) == Some(version));
}

#[test]
fn newest_version_stays(rt: HostRuntime) -> Result<(), Fail> {
    let mut tree = Tree::new(rt.alloc(), &small()?)?;
    check_apply(&rt, &mut tree, 2, 1, 1, true);
    check_apply(&rt, &mut tree, 1, 1, 2, false);
    check_apply(&rt, &mut tree, 2, 1, 3, false);
    check_node(&rt, &tree, 1, Some(2), 1);
    check_node(&rt, &tree, 3, None, 0);
    check_apply(&rt, &mut tree, 3, 1, 3, true);
    check_apply(&rt, &mut tree, 0, 3, 4, true);
    check_node(&rt, &tree, 1, Some(3), 3);
    check_node(&rt, &tree, 3, Some(0), 4);
    Ok(())
}
