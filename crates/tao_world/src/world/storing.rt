//! Moves of stores: their nodes are applied, and they are acknowledged.
ghost use Rattle.std.specs.Prelude.{◌≡◌, ◌<◌, ◌≤◌, ◌∷◌, ◌++◌, reverse, not, List, length, count_by, slice_index, slice_set, replicate, false, vec_len, vec_capacity, Some, None, IsSome, IfSome};
ghost use Rattle.std.specs.Option.{option_map};
ghost use Rattle.tao_base.specs.Links.{FitsLinks};
ghost use Rattle.tao_images.specs.Paths.{piece};
ghost use Rattle.tao_schedule.specs.Moves.{Move, Applies, Acknowledges};
ghost use Rattle.tao_tree.specs.Nodes.{applied};
ghost use Rattle.tao_world.specs.Changes.{with_put};
ghost use Rattle.tao_world.specs.Moving.{sending_of, store_at, with_applied, apply_move, applies_below, HasPut, HasPutBelow, HasAcknowledged, with_store, version_of};
ghost use Rattle.tao_world.specs.State.{is_set_at, row_at};
ghost use Rattle.tao_world.specs.World.{IsLeftBy};

use crate::loading::apply_bucket;
use crate::requests::Store;
use crate::world::World;
use tao_base::Order;
use tao_tree::Tree;

impl World {
    /// Applies node `j` of a store to the tree, perhaps again.
    pub(crate) fn apply(&mut self, version: u32, j: usize)
        requires { j < length (store_at self.old version).order.nodes }
        ensures state { self.new ≡ with_applied self.old version j }
        ensures left { (ms : List Move) → IsLeftBy ms self.old → IsLeftBy (Applies version (slice_index (store_at self.old version).order.nodes j) ∷ ms) self.new }
    {
        apply_node(&mut self.tree, &mut self.stores, version as usize, j);
    }

    /// Applies all nodes of a store that weren't put, in their order.
    pub(crate) fn apply_rest(&mut self, version: u32)
        requires { IsSome (row_at self.old.stores version) }
        ensures changed { HasPutBelow version (length (store_at self.old version).order.nodes) self.old self.new }
        ensures left { (ms : List Move) → IsLeftBy ms self.old → IsLeftBy (reverse (applies_below self.old version (length (store_at self.old version).order.nodes)) ++ ms) self.new }
    {
        let count = nodes(&self.stores, version as usize);
        for j in 0..count {
            self.apply_unput(version, j);
        }
    }

    // Applies node `j` of a store, unless it was put.
    fn apply_unput(&mut self, version: u32, j: usize)
        requires within { j < length (store_at self.old version).order.nodes }
        requires flags { length (store_at self.old version).put ≡ length (store_at self.old version).order.nodes }
        ensures changed { HasPut version j self.old self.new }
        ensures left { (ms : List Move) → IsLeftBy ms self.old → IsLeftBy (apply_move self.old version j ++ ms) self.new }
    {
        if is_put(&self.stores, version as usize, j) {
            return;
        }
        self.apply(version, j);
    }

    /// Acknowledges a store of which nothing is left.
    pub(crate) fn acknowledge(&mut self, version: u32)
        requires store { IsSome (row_at self.old.stores version) }
        requires none_left { (store_at self.old version).left ≡ 0 }
        ensures changed { HasAcknowledged version self.old self.new }
        ensures left { (ms : List Move) → IsLeftBy ms self.old → IsLeftBy (Acknowledges version ∷ ms) self.new }
    {
        let Ok(()) = self.desk.acked(version) else {
            unreachable!()
        };
        self.stores[version as usize] = None;
    }
}

// Applies node `j` of a store, and notes that it was put.
fn apply_node(tree: &mut Tree, stores: &mut [Option<Store>], version: usize, j: usize)
    requires within { j < length (sending_of (row_at stores.old version)).order.nodes }
    requires fits { FitsLinks tree.old.shape (sending_of (row_at stores.old version)).order }
    requires flags { length (sending_of (row_at stores.old version)).put ≡ length (sending_of (row_at stores.old version)).order.nodes }
    requires counted { (sending_of (row_at stores.old version)).left ≡ count_by not (sending_of (row_at stores.old version)).put }
    ensures tree { tree.new ≡ applied tree.old (sending_of (row_at stores.old version)).order.version (slice_index (sending_of (row_at stores.old version)).order.nodes j) (piece tree.old.shape (sending_of (row_at stores.old version)).order.image j) }
    ensures stores { stores.new ≡ slice_set stores.old version (Some (with_put (sending_of (row_at stores.old version)) j)) }
{
    let Some(store) = &mut stores[version] else {
        unreachable!()
    };
    apply_bucket(tree, &store.order, j);
    store.set_put(j);
}

// Whether node `j` of a store was put.
fn is_put(stores: &[Option<Store>], version: usize, j: usize) -> bool
    requires { IsSome (row_at stores.now version) }
    ensures { result ≡ is_set_at (sending_of (row_at stores.now version)).put j }
{
    let Some(store) = &stores[version] else {
        unreachable!()
    };
    store.is_put(j)
}

// How many nodes a store has.
fn nodes(stores: &[Option<Store>], version: usize) -> usize
    requires { IsSome (row_at stores.now version) }
    ensures { result ≡ length (sending_of (row_at stores.now version)).order.nodes }
{
    let Some(store) = &stores[version] else {
        unreachable!()
    };
    store.nodes()
}

// Adds the store of an order, if there is one, and tells its version. The flags are as many as an order may have nodes.
pub(super) fn add_store(
    stores: &mut Vec<Option<Store>>,
    order: Option<Order>,
    flags: Vec<bool>,
) -> Option<u32>
    requires room { vec_len stores.old < vec_capacity stores.old }
    requires unset { flags.items ≡ replicate (length flags.items) false }
    requires few { IfSome order (λ order. length order.nodes ≤ length flags.items) }
    ensures stores { stores.new.items ≡ with_store order stores.old.items }
    ensures version { result ≡ option_map version_of order }
{
    let Some(order) = order else {
        return None;
    };
    let version = order.version;
    stores.push_reserved(Some(Store::new(order, flags)));
    Some(version)
}
