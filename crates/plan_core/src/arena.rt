//! Entries named by their numbers. Contracts see an arena as the list of its entries.
ghost use Rattle.std.specs.Prelude.{◌≡◌, ◌<◌, ◌^◌, ◌++◌, ◌∷◌, [], length, IfOk, OnOk, OnErr, slice_get, slice_set, Some, IfSome};
ghost use Rattle.std.specs.Borrow.{sem};

use crate::try_clone::TryClone;
use std::alloc::{AllocError, Global};
use std::marker::Model;
use std::mem;

/// The number of an entry of an arena.
#[derive(Clone, Copy, PartialEq, Eq, Hash, Debug)]
pub struct Node(pub usize);

/// The number of an expression that is a column.
#[derive(Clone, Copy, PartialEq, Eq, Hash, Debug)]
pub struct ColumnNode(pub Node);

/// Entries that are named by their numbers. A contract sees the list of the entries.
#[derive(Drop)]
pub struct Arena<T> {
    items: Vec<T>,
}

impl<T> Model for Arena<T> {
    ghost use Rattle.std.specs.Prelude.{List, length, ◌<◌, ◌^◌};

    ghost Value = { List T };

    ghost view = { λ a. a.items.items };

    // An arena holds fewer than 4294967296 entries.
    ghost invariant = { λ a. length a.items.items < 2 ^ 32 };
}

impl<T> Arena<T> {
    ghost use Rattle.plan_core.specs.Lending.{lends_entry};

    /// An arena without entries.
    pub fn new(alloc: Global) -> Self
        ensures { result ≡ [] }
    {
        Arena {
            items: Vec::new(alloc),
        }
    }

    /// An arena without entries that has room for so many. Refuses for want of memory alone.
    pub fn with_capacity(alloc: Global, capacity: usize) -> Result<Self, AllocError>
        ensures { IfOk result (λ arena. arena ≡ []) }
    {
        Ok(Arena {
            items: Vec::with_capacity(alloc, capacity)?,
        })
    }

    /// How many entries there are.
    pub fn len(&self) -> usize
        ensures value { result ≡ length self.now }
        ensures small { result < 2 ^ 32 }
    {
        self.items.len()
    }

    /// Appends an entry and gives its number. It refuses where memory is short, and where there
    /// are 4294967295 entries already.
    pub fn add(&mut self, value: T) -> Result<Node, AllocError>
    where
        T: Drop,
        ensures added { OnOk result (self.new ≡ self.old ++ value ∷ []) }
        ensures node { IfOk result (λ n. n.0 ≡ length self.old) }
        ensures unchanged { OnErr result (self.new ≡ self.old) }
    {
        let at = self.items.len();
        if at >= 4294967295 {
            return Err(AllocError);
        }
        self.items.push(value)?;
        Ok(Node(at))
    }

    /// The entry of a number.
    pub fn get(&self, node: Node) -> &T
        requires { node.0 < length self.now }
        ensures entry { slice_get self.now node.0 ≡ Some result.now }
        ensures small { length self.now < 2 ^ 32 }
    {
        &self.items[node.0]
    }

    /// The entry of a number, for writing.
    pub fn get_mut(&mut self, node: Node) -> &mut T
        requires { node.0 < length self.old }
        ensures* writes_back { sem 𝓛 (lends_entry T.row self.entry node.0 result) }
        ensures value { slice_get self.old node.0 ≡ Some result.now }
    {
        &mut self.items[node.0]
    }

    /// Puts a value in place of an entry, and gives the entry.
    pub fn replace(&mut self, node: Node, value: T) -> T
        requires { node.0 < length self.old }
        ensures given { slice_get self.old node.0 ≡ Some result }
        ensures after { self.new ≡ slice_set self.old node.0 value }
    {
        mem::replace(&mut self.items[node.0], value)
    }

    /// Puts a value in place of an entry, and drops the entry.
    pub fn put(&mut self, node: Node, value: T)
    where
        T: Drop,
        requires { node.0 < length self.old }
        ensures { self.new ≡ slice_set self.old node.0 value }
    {
        let _ = self.replace(node, value);
    }

    /// Takes an entry, and leaves the default.
    pub fn take(&mut self, node: Node) -> T
    where
        T: Default,
        requires { node.0 < length self.old }
        ensures given { slice_get self.old node.0 ≡ Some result }
        ensures after { (d : T) × (T.is_default d) × (self.new ≡ slice_set self.old node.0 d) }
    {
        mem::take(&mut self.items[node.0])
    }

    /// Exchanges two entries.
    pub fn swap(&mut self, a: Node, b: Node)
        requires first { a.0 < length self.old }
        requires second { b.0 < length self.old }
        ensures { IfSome (slice_get self.old a.0) (λ x. IfSome (slice_get self.old b.0) (λ y. self.new ≡ slice_set (slice_set self.old a.0 y) b.0 x)) }
    {
        self.items.swap(a.0, b.0);
    }
}

impl TryClone for Node {
    fn try_clone(&self, alloc: Global) -> Result<Self, AllocError>
        ensures { IfOk result (λ r. r ≡ self.now) }
    {
        let _ = alloc;
        Ok(*self)
    }
}

impl TryClone for ColumnNode {
    fn try_clone(&self, alloc: Global) -> Result<Self, AllocError>
        ensures { IfOk result (λ r. r ≡ self.now) }
    {
        let _ = alloc;
        Ok(*self)
    }
}
