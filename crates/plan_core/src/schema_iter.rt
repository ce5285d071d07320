//! The columns of a schema, one after another. Contracts see a walk as the columns that are left.
ghost use Rattle.std.specs.Prelude.{◌≡◌, length, map as map_list, string_bytes};
ghost use Rattle.std.specs.Iterator.{at_most};
ghost use Rattle.std.specs.Map.Iter.{TakesFirst, deref_pair};

use crate::data_type::DataType;
use indexmap::map;
use std::marker::Model;

/// The columns of a schema, each by its name and type. A contract sees the list of those left.
#[derive(Drop)]
pub struct SchemaIter<'a> {
    entries: map::Iter<'a, String, DataType>,
}

impl<'a> Model for SchemaIter<'a> {
    ghost use Rattle.std.specs.Prelude.{List, ℕ, map, string_bytes};
    ghost use Rattle.plan_core.specs.declared.data_type.DataType.{DataType};

    ghost Value = { List (List ℕ × DataType) };

    ghost view = { λ s. map (λ p. (string_bytes p.0, p.1)) s.entries };
}

impl<'a> SchemaIter<'a> {
    /// A walk over the columns that these entries hold, in their order.
    pub(crate) fn new(entries: map::Iter<'a, String, DataType>) -> Self
        ensures { result ≡ map_list (λ p. (string_bytes p.0, p.1)) entries.entry }
    {
        SchemaIter { entries }
    }
}

impl<'a> Iterator for SchemaIter<'a> {
    type Item = (&'a str, &'a DataType);

    ghost next_gives = { TakesFirst deref_pair };

    ghost remaining = { λ s. at_most (length s) };

    fn next(&mut self) -> Option<(&'a str, &'a DataType)> {
        let (name, dtype) = self.entries.next()?;
        Some((name.as_str(), dtype))
    }
}
