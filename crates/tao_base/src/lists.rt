//! The one list type behind blocks, images, numbers and the lists of them. A contract sees it as the list of its items.
ghost use Rattle.std.specs.Prelude.{◌≡◌, ℕ, [], ◌∷◌, ◌++◌, take, IfOk, OnOk, OnErr};
ghost use Rattle.std.specs.Borrow.{sem};

use crate::calls::Op;
use crate::failures::NoMemory;
use crate::storage::Bucket;
use std::alloc::Global;
use std::marker::Model;

/// A growing list. Only `push`, `extend_from_slice` and `from_slice` allocate: a preallocated list is one that was filled, and is then
/// written in place and truncated.
#[derive(Debug, Drop)]
pub struct Items<T> {
    items: Vec<T>,
}

/// The bytes of one block.
pub type Block = Items<u8>;
/// Any other bytes: a text, a frame, the buckets of an order.
pub type Image = Items<u8>;
/// Words, leaves or node numbers.
pub type Numbers = Items<u32>;

pub type Blocks = Items<Block>;

pub type Buckets = Items<Bucket>;

pub type Ops = Items<Op>;

impl<T> Model for Items<T> {
    ghost use Rattle.std.specs.Prelude.{List};
    ghost use Rattle.std.specs.Coded.{coded_list};

    ghost Value = { List T };

    ghost coded = { coded_list T.code };

    ghost view = { λ it. it.items.items };
}

impl<T> Items<T> {
    ghost use Rattle.tao_base.specs.Items.{LendsItems};

    /// An empty list. It allocates nothing.
    pub fn new(alloc: Global) -> Self
        ensures { result ≡ [] }
    {
        Items {
            items: Vec::new(alloc),
        }
    }

    /// The items of a vector, which is not copied.
    pub fn from_vec(items: Vec<T>) -> Self
        ensures { result ≡ items.items }
    {
        Items { items }
    }

    pub fn push(&mut self, item: T) -> Result<(), NoMemory>
    where
        T: Drop,
        ensures ok { OnOk result (self.new ≡ self.old ++ item ∷ []) }
        ensures err { OnErr result (self.new ≡ self.old) }
    {
        match self.items.push(item) {
            Ok(()) => Ok(()),
            Err(_) => Err(NoMemory),
        }
    }

    pub fn extend_from_slice(&mut self, more: &[T]) -> Result<(), NoMemory>
    where
        T: Copy,
        ensures ok { OnOk result (self.new ≡ self.old ++ more.now) }
        ensures err { OnErr result (self.new ≡ self.old) }
    {
        match self.items.extend_from_slice(more) {
            Ok(()) => Ok(()),
            Err(_) => Err(NoMemory),
        }
    }

    /// A list with a copy of these items.
    pub fn from_slice(alloc: Global, items: &[T]) -> Result<Self, NoMemory>
    where
        T: Copy,
        ensures { IfOk result (λ list. list ≡ items.now) }
    {
        match Vec::from_slice(alloc, items) {
            Ok(items) => Ok(Items { items }),
            Err(_) => Err(NoMemory),
        }
    }

    pub fn as_slice(&self) -> &[T]
        ensures { result.now ≡ self.now }
    {
        &self.items
    }

    pub fn as_mut_slice(&mut self) -> &mut [T]
        ensures* writes_back { sem 𝓛 (LendsItems T.row self.entry result) }
        ensures value { result.now ≡ self.old }
    {
        &mut self.items
    }

    /// Keeps the first `n` items, or all where there are no more.
    pub fn truncate(&mut self, n: usize)
    where
        T: Drop,
        ensures { self.new ≡ take n self.old }
    {
        self.items.truncate(n);
    }
}
