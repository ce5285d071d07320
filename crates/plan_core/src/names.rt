//! A list of names in which none stands twice, with a look-up.
ghost use Rattle.std.specs.Prelude.{◌≡◌, [], length, not, IfOk, OnOk, OnErr, IfSome, IfNone, None, Some, slice_get};
ghost use Rattle.plan_core.specs.Names.{has, with_name, AreDistinct};

use indexmap::IndexSet;
use std::alloc::{AllocError, Global};
use std::marker::Model;

/// Names in the order in which they came, none twice. A contract sees the list of their bytes.
#[derive(Drop)]
pub struct Names {
    names: IndexSet<String>,
}

impl Model for Names {
    ghost use Rattle.std.specs.Prelude.{List, ℕ, map, string_bytes};

    ghost Value = { List (List ℕ) };

    ghost view = { λ s. map string_bytes s.names.keys };

    ghost use Rattle.plan_core.specs.Names.{AreDistinct};

    // No name stands twice.
    ghost invariant = { λ s. AreDistinct (map string_bytes s.names.keys) };
}

impl Names {
    /// No names.
    pub fn new(alloc: Global) -> Self
        ensures { result ≡ [] }
    {
        Names {
            names: IndexSet::new(alloc),
        }
    }

    /// How many names there are.
    pub fn len(&self) -> usize
        ensures value { result ≡ length self.now }
        ensures distinct { AreDistinct self.now }
    {
        self.names.len()
    }

    /// Whether the name is there.
    pub fn contains(&self, name: &str) -> bool
        ensures { result ≡ has self.now name.now }
    {
        self.names.contains(name)
    }

    /// Adds a name, last, unless it is there; says whether it was added. Refuses for want of memory alone.
    pub fn add(&mut self, name: &str) -> Result<bool, AllocError>
        ensures added { IfOk result (λ b. b ≡ not (has self.old name.now)) }
        ensures after { OnOk result (self.new ≡ with_name self.old name.now) }
        ensures unchanged { OnErr result (self.new ≡ self.old) }
    {
        let owned = String::from_str(*self.names.allocator(), name)?;
        Ok(self.names.insert(owned)?)
    }

    /// The name at a place, if there are so many.
    pub fn get_at_index(&self, index: usize) -> Option<&str>
        ensures found { IfSome result (λ a. slice_get self.now index ≡ Some a.now) }
        ensures none { IfNone result (slice_get self.now index ≡ None) }
    {
        match self.names.get_index(index) {
            None => None,
            Some(name) => Some(name.as_str()),
        }
    }
}
