//! Looks up a block's first copy.
ghost use Rattle.std.specs.Prelude.{◌≡◌, ◌+◌, ◌^◌, ◌<◌, length, replicate, IfSome, unwrap_or};
ghost use Rattle.std.specs.Option.{option_copied};
ghost use Rattle.tao_base.specs.Tree.{path};
ghost use Rattle.tao_flush.specs.Blocks.{IsStash};
ghost use Rattle.tao_held.specs.Steps.{found_copy};
ghost use Rattle.tao_model.specs.Placement.{look, first_copy, with_stash};
ghost use Rattle.tao_holdings.specs.Lists.{entries_in, AreNodes};

use tao_base::{Block, Entry, Params, path_node};
use tao_flush::Stash;
use tao_subtree::Subtree;

/// The value of the block in the stash, or else of its first copy on the path to a leaf, from the root on.
pub(crate) fn find_copy<'a>(
    p: &Params,
    subtree: &'a Subtree,
    stash: &'a Stash,
    leaf: u32,
    block: u32,
) -> Option<&'a Block>
    requires leaf { leaf < 2 ^ p.now.l }
    requires shape { stash.now.shape ≡ p.now }
    requires in_form { AreNodes p.now subtree.now.residents }
    ensures copy { option_copied result ≡ found_copy p.now.l leaf (with_stash stash.now.entries (entries_in subtree.now.residents)) block }
    ensures len { IfSome result (λ value. length value.now ≡ p.now.b) }
{
    match stash.get(block) {
        Some(value) => Some(value),
        None => copy_on_path(p, subtree, leaf, block),
    }
}

fn copy_on_path<'a>(p: &Params, subtree: &'a Subtree, leaf: u32, block: u32) -> Option<&'a Block>
    requires leaf { leaf < 2 ^ p.now.l }
    ensures { option_copied result ≡ first_copy (path p.now.l leaf) (entries_in subtree.now.residents) block }
{
    for depth in 0..p.l() + 1 {
        let node = path_node(p, leaf, depth);
        if let Some(value) = copy_in_node(subtree, node, block) {
            return Some(value);
        }
    }
    None
}

fn copy_in_node(subtree: &Subtree, node: u32, block: u32) -> Option<&Block>
    ensures { option_copied result ≡ look block (entries_in subtree.now.residents node) }
{
    match subtree.entries(node) {
        Some(entries) => copy_among(entries.as_slice(), block),
        None => None,
    }
}

fn copy_among(entries: &[Entry], block: u32) -> Option<&Block>
    ensures { option_copied result ≡ look block entries.now }
{
    for i in 0..entries.len() {
        if entries[i].id == block {
            return Some(&entries[i].value);
        }
    }
    None
}

/// Writes what was found, or zero bytes if nothing was.
pub(crate) fn write_found(found: Option<&Block>, value: &mut Block)
    requires { IfSome found (λ block. length block.now ≡ length value.old) }
    ensures value { value.new ≡ unwrap_or (option_copied found.entry) (replicate (length value.old) 0) }
    ensures len { length value.new ≡ length value.old }
{
    match found {
        Some(block) => value.as_mut_slice().copy_from_slice(block.as_slice()),
        None => value.as_mut_slice().fill(0),
    }
}
