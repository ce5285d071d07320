//! The types of columns by name, and what they were before changes.
ghost use Rattle.std.specs.Prelude.{◌≡◌, ◌++◌, [], List, IfNone, IfOk, IfSome, None, OnOk, Some, ℕ, if◌then◌else◌, length, slice_get, string_bytes};
ghost use Rattle.std.specs.Str.{bytes_eq};
ghost use Rattle.plan_core.specs.Columns.{names_of, type_of};
ghost use Rattle.plan_prune_names.specs.Known.{as_changes};

use indexmap::IndexMap;
use plan_core::DataType;
use std::alloc::{AllocError, Global};
use std::marker::Model;

/// The type that a column had before it was changed. A contract sees the pair.
#[derive(Drop)]
pub struct Change {
    pub name: String,
    pub before: Option<DataType>,
}

impl Model for Change {
    ghost use Rattle.std.specs.Prelude.{List, Option, ℕ, string_bytes};
    ghost use Rattle.plan_core.specs.declared.data_type.DataType.{DataType};

    ghost Value = { List ℕ × Option DataType };

    ghost view = { λ s. (string_bytes s.name, s.before) };
}

/// The types of columns by name. A contract sees the columns, in some order.
#[derive(Drop)]
pub struct Types {
    types: IndexMap<String, DataType>,
}

impl Model for Types {
    ghost use Rattle.std.specs.Prelude.{map, string_bytes};
    ghost use Rattle.plan_core.specs.Columns.{Columns};

    ghost Value = { Columns };

    ghost view = { λ s. map (λ p. (string_bytes p.0, p.1)) s.types.entries };
}

impl Types {
    /// No columns.
    pub fn new(alloc: Global) -> Self
        ensures { result ≡ [] }
    {
        Types {
            types: IndexMap::new(alloc),
        }
    }

    /// The type of a column, if it is there.
    pub fn get(&self, name: &str) -> Option<DataType>
        ensures { result ≡ type_of self.now name.now }
    {
        self.types.get(name).copied()
    }

    /// How many columns there are.
    pub fn len(&self) -> usize
        ensures { result ≡ length self.now }
    {
        self.types.len()
    }

    /// The name at a place, if there are so many columns.
    pub fn name_at(&self, index: usize) -> Option<&str>
        ensures found { IfSome result (λ a. slice_get (names_of self.now) index ≡ Some a.now) }
        ensures none { IfNone result (slice_get (names_of self.now) index ≡ None) }
    {
        match self.types.get_index(index) {
            None => None,
            Some((name, _)) => Some(name.as_str()),
        }
    }

    /// Gives a column a type, or takes it away, and gives the type that it had, if it was there. Refuses for want of memory alone.
    pub fn set(
        &mut self,
        name: String,
        dtype: Option<DataType>,
    ) -> Result<Option<DataType>, AllocError>
        ensures given { IfOk result (λ old. old ≡ type_of self.old (string_bytes name)) }
        ensures after { OnOk result ((a : List ℕ) → type_of self.new a ≡ (if bytes_eq a (string_bytes name) then dtype else type_of self.old a)) }
    {
        match dtype {
            None => Ok(self.types.swap_remove(name.as_str())),
            Some(dtype) => Ok(self.types.insert(name, dtype)?),
        }
    }

    /// Adds to changes that each column was there with its type. Refuses for want of memory alone.
    pub fn into_changes(self, changes: &mut Vec<Change>) -> Result<(), AllocError>
        ensures { OnOk result (changes.new.items ≡ changes.old.items ++ as_changes self) }
    {
        for (name, dtype) in self.types {
            changes.push(Change {
                name,
                before: Some(dtype),
            })?;
        }
        Ok(())
    }
}
