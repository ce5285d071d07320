//! A list that keeps a single value in itself. Contracts see it as a list.
ghost use Rattle.std.specs.Prelude.{◌≡◌, ◌++◌, ◌∷◌, [], length, IfOk, OnOk, OnErr, MatchOption};
ghost use Rattle.std.specs.Cmp.Lexicographic.{pointwise, lists_per, lists_equiv};
ghost use Rattle.std.specs.Hash as fed;
ghost use Rattle.std.specs.Hash.{items_Alike};

use crate::try_clone::TryClone;
use smallvec::SmallVec;
use std::alloc::{AllocError, Global};
use std::hash::{Hash, Hasher};
use std::marker::Model;
use std::{fmt, mem};

/// A list that keeps a single value in itself, and takes memory for more. A contract sees the
/// list of its values.
///
/// A `SmallVec` of its own fills free places with a default, which a reference has not: here it
/// only ever holds the one value.
#[derive(Drop)]
pub struct UnitVec<T> {
    alloc: Global,
    store: Store<T>,
}

/// Where the values of a list are kept.
#[derive(Drop)]
enum Store<T> {
    /// There is no value.
    Empty,
    /// Just one value, kept in the list itself.
    One(SmallVec<T, 1>),
    /// Values in memory of their own; there may be any number of them.
    Many(Vec<T>),
}

impl<T> Model for UnitVec<T> {
    ghost use Rattle.std.specs.Prelude.{List};

    ghost Value = { List T };

    ghost use Rattle.plan_core.specs.UnitVec.{items_of, HoldsOne};

    ghost view = { λ v. items_of v.store };

    // What is kept in the list itself is one value.
    ghost invariant = { λ v. HoldsOne v.store };
}

impl<T> UnitVec<T> {
    /// A list without values.
    pub fn new(alloc: Global) -> Self
        ensures { result ≡ [] }
    {
        UnitVec {
            alloc,
            store: Store::Empty,
        }
    }

    /// Appends a value. It refuses only where memory is short.
    pub fn push(&mut self, value: T) -> Result<(), AllocError>
    where
        T: Drop,
        ensures pushed { OnOk result (self.new ≡ self.old ++ value ∷ []) }
        ensures unchanged { OnErr result (self.new ≡ self.old) }
    {
        match &mut self.store {
            Store::Empty => self.store = Store::One(SmallVec::from_buf(self.alloc, [value])),
            Store::One(_) => {
                let mut items = Vec::with_capacity(self.alloc, 2)?;
                if let Some(first) = self.store.take_only() {
                    items.push_reserved(first);
                }
                items.push_reserved(value);
                self.store = Store::Many(items);
            }
            Store::Many(items) => items.push(value)?,
        }
        Ok(())
    }

    /// Takes the last value, if there is one.
    pub fn pop(&mut self) -> Option<T>
    where
        T: Drop,
        ensures { MatchOption result (self.old ≡ [] × self.new ≡ []) (λ x. self.old ≡ self.new ++ x ∷ []) }
    {
        match &mut self.store {
            Store::Many(items) => items.pop(),
            _ => self.store.take_only(),
        }
    }

    /// How many values there are.
    pub fn len(&self) -> usize
        ensures { result ≡ length self.now }
    {
        self.as_slice().len()
    }

    /// The values.
    pub fn as_slice(&self) -> &[T]
        ensures { result.now ≡ self.now }
    {
        match &self.store {
            Store::Empty => &[],
            Store::One(one) => one.as_slice(),
            Store::Many(items) => items.as_slice(),
        }
    }
}

impl<T> Store<T> {
    ghost use Rattle.plan_core.specs.UnitVec.{items_of, HoldsOne, IsNotOne};

    /// Takes the value that is kept without memory, if there is one.
    fn take_only(&mut self) -> Option<T>
    where
        T: Drop,
        requires { HoldsOne self.old }
        ensures taken { MatchOption result (IsNotOne self.old × self.new ≡ self.old) (λ x. (items_of self.old ≡ x ∷ []) × (items_of self.new ≡ [])) }
        ensures holds { HoldsOne self.new }
    {
        match mem::replace(self, Store::Empty) {
            Store::Empty => None,
            Store::One(one) => Some(only_value(one)),
            Store::Many(items) => {
                *self = Store::Many(items);
                None
            }
        }
    }
}

/// The value of a list that has just one.
fn only_value<T: Drop>(one: SmallVec<T, 1>) -> T
    requires full { one.capacity ≡ 1 }
    requires single { length one.items ≡ 1 }
    ensures { one.items ≡ result ∷ [] }
{
    match one.into_inner() {
        Ok([only]) => only,
        Err(_list) => unreachable!(),
    }
}

impl<T: TryClone> TryClone for UnitVec<T> {
    fn try_clone(&self, alloc: Global) -> Result<Self, AllocError>
        ensures { IfOk result (λ r. r ≡ self.now) }
    {
        let mut copy = UnitVec::new(alloc);
        for x in self.as_slice() {
            copy.push(x.try_clone(alloc)?)?;
        }
        Ok(copy)
    }
}

impl<T: PartialEq> PartialEq for UnitVec<T> {
    ghost eq = { λ v w. pointwise T.eq v w };

    ghost laws = { lists_per T.laws };

    fn eq(&self, other: &Self) -> bool {
        self.as_slice() == other.as_slice()
    }
}

impl<T: Eq> Eq for UnitVec<T> {
    ghost laws = { lists_equiv T.Eq.laws };
}

impl<T: Hash> Hash for UnitVec<T> {
    ghost hash_input = { λ v. fed.slice T.hash_input v };

    ghost respects_eq = { (items_Alike (record { fed = T.respects_eq })).fed };

    fn hash<H: Hasher>(&self, state: &mut H) {
        self.as_slice().hash(state);
    }
}

impl<T: fmt::Debug> fmt::Debug for UnitVec<T> {
    fn fmt<W: fmt::Write>(&self, f: &mut fmt::Formatter<W>) -> fmt::Result {
        f.debug_list().entries(self.as_slice()).finish()
    }
}
