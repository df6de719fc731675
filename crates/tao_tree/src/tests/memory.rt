//! A tree behind a lock, and the links that lead to it within the proxy.
ghost use Rattle.std.specs.Prelude.{◌≡◌, ◌<◌, IfOk};
ghost use Rattle.tao_base.specs.Limits.{shape};
ghost use Rattle.tao_base.specs.declared.parameters.Form.TheVariants.{One};

use super::trees::check_version;
use super::{LEN, bucket, check_no_path, check_path, check_store, order_of, order_of_two, small};
use crate::{MemLink, Shaped, SharedTree, Tree, TreeLink};
use std::alloc::Global;
use std::marker::Brand;
use std::process::Abort;
use std::sync::Wait;
use std::test::Fail;
use tao_base::{NoMemory, Numbers};

fn is_send<T: Send>(_: &T) {}

fn is_sync<T: Sync>(_: &T) {}

#[test]
fn links_in_memory(rt: HostRuntime) -> Result<(), Fail> {
    let alloc = rt.alloc();
    let tree = in_memory::<Brand, _>(&rt, alloc, Tree::new(alloc, &small()?)?)?;
    check_version(&rt, &tree, 1, 4);
    check_version(&rt, &tree, 2, 4);
    check_version(&rt, &tree, 3, 3);
    Ok(())
}

// The tree, which is empty, behind a lock; it comes back as the links have left it.
fn in_memory<J: Shaped + Send + Sync, R: Abort + Wait>(
    rt: &R,
    alloc: Global,
    tree: Tree,
) -> Result<Tree, Fail>
    requires brand { tree.shape ≡ J.shape }
    requires small { tree.shape ≡ shape 1 1 4 1 1 One }
{
    let shared: SharedTree<J> = SharedTree::new(tree);
    is_sync(&shared);
    failing_fetches(rt, alloc, &shared)?;
    forgeries(rt, alloc, &shared)?;
    failing_stores(rt, alloc, &shared)?;
    direct_stores(rt, alloc, &shared)?;
    stores_of_two(rt, alloc, &shared)?;
    Ok(shared.into_tree())
}

// the second call fails; the log has no capacity for a third one
fn failing_fetches<J: Shaped + Send + Sync, R: Abort + Wait>(
    rt: &R,
    alloc: Global,
    tree: &SharedTree<J>,
) -> Result<(), Fail>
    requires { tree.now ≡ shape 1 1 4 1 1 One }
{
    let mut link = MemLink::new(alloc, tree, Numbers::from_slice(alloc, &[1])?);
    link.reserve(2, 0)?;
    is_send(&link);
    check_path(rt, &mut link, 1, [0; 2 * LEN]);
    check_no_path(rt, &mut link);
    check_no_path(rt, &mut link);
    link.reserve(1, 0)?;
    check_path(rt, &mut link, 0, [0; 2 * LEN]);
    Ok(())
}

// Zeros but for one byte.
fn zeros_but(at: usize, byte: u8) -> [u8; 2 * LEN]
    requires { at < 56 }
{
    let mut path = [0; 2 * LEN];
    path[at] = byte;
    path
}

// a forgery is of the answer to its call and not of the tree
fn forgeries<J: Shaped, R: Abort + Wait>(
    rt: &R,
    alloc: Global,
    tree: &SharedTree<J>,
) -> Result<(), Fail>
    requires { tree.now ≡ shape 1 1 4 1 1 One }
{
    let mut link = forging_link(alloc, tree)?;
    link.reserve(3, 0)?;
    check_path(rt, &mut link, 1, zeros_but(27, 7));
    check_path(rt, &mut link, 1, [0; 2 * LEN]);
    check_path(rt, &mut link, 1, zeros_but(0, 5));
    Ok(())
}

// A link that alters its first answer twice, once beyond the path, and its third.
fn forging_link<J: Shaped>(alloc: Global, tree: &SharedTree<J>) -> Result<MemLink<'_, J>, NoMemory>
    ensures { IfOk result (λ link. link.shape ≡ tree.now) }
{
    let mut link = MemLink::new(alloc, tree, Numbers::new(alloc));
    link.forge(0, 27, 1)?;
    link.forge(0, 27, 6)?;
    link.forge(0, 56, 9)?;
    link.forge(2, 0, 5)?;
    Ok(link)
}

// the log has no capacity for the second store's bucket, and the third store fails
fn failing_stores<J: Shaped, R: Abort + Wait>(
    rt: &R,
    alloc: Global,
    tree: &SharedTree<J>,
) -> Result<(), Fail>
    requires { tree.now ≡ shape 1 1 4 1 1 One }
{
    let root = order_of(rt, alloc, 2, bucket(1, 10))?;
    let leaf = order_of(rt, alloc, 3, bucket(3, 20))?;
    let mut link = MemLink::new(alloc, tree, Numbers::from_slice(alloc, &[2])?);
    link.reserve(3, 1)?;
    check_store(rt, &mut link, &root, true);
    check_store(rt, &mut link, &leaf, false);
    link.reserve(0, 1)?;
    check_store(rt, &mut link, &leaf, false);
    Ok(())
}

// the root is there, and then the right leaf too
fn direct_stores<J: Shaped, R: Abort + Wait>(
    rt: &R,
    alloc: Global,
    tree: &SharedTree<J>,
) -> Result<(), Fail>
    requires { tree.now ≡ shape 1 1 4 1 1 One }
{
    let leaf = order_of(rt, alloc, 3, bucket(3, 20))?;
    let mut link = TreeLink::new(tree);
    check_path(rt, &mut link, 1, joined(bucket(1, 10), [0; LEN]));
    check_store(rt, &mut link, &leaf, true);
    check_path(rt, &mut link, 1, joined(bucket(1, 10), bucket(3, 20)));
    Ok(())
}

// both buckets of one order are on the path to the left leaf
fn stores_of_two<J: Shaped, R: Abort + Wait>(
    rt: &R,
    alloc: Global,
    tree: &SharedTree<J>,
) -> Result<(), Fail>
    requires { tree.now ≡ shape 1 1 4 1 1 One }
{
    let both = order_of_two(rt, alloc, 4, bucket(1, 30), bucket(2, 40))?;
    let mut link = TreeLink::new(tree);
    check_store(rt, &mut link, &both, true);
    check_path(rt, &mut link, 0, joined(bucket(1, 30), bucket(2, 40)));
    Ok(())
}

// The path of these two buckets.
fn joined(root: [u8; LEN], leaf: [u8; LEN]) -> [u8; 2 * LEN] {
    let mut path = [0; 2 * LEN];
    path[..LEN].copy_from_slice(&root);
    path[LEN..].copy_from_slice(&leaf);
    path
}
