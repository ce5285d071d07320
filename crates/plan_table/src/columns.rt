//! The columns of a table, in order and by name. Contracts see a list of columns.
ghost use Rattle.std.specs.Prelude.{◌≡◌, ◌<◌, ◌↔◌, [], length, IsSome, IfOk, OnOk, OnErr, slice_get, option_copied};
ghost use Rattle.std.specs.Map.Iter.{GivesInOrder, ShowsInOrder, deref};
ghost use Rattle.plan_core.specs.Columns.{HasDistinctNames};
ghost use Rattle.plan_table.specs.declared.column.Column.{Column as ColumnType};
ghost use Rattle.plan_table.specs.Tables.{column_of, types_of, with_column};

use crate::column::Column;
use indexmap::IndexMap;
use indexmap::map::{IntoValues, Values};
use plan_core::TryClone;
use std::alloc::{AllocError, Global};
use std::marker::Model;

/// The columns of a table, no two of one name. A contract sees the list of them.
#[derive(Drop)]
pub struct Columns {
    columns: IndexMap<String, Column>,
}

impl Model for Columns {
    ghost use Rattle.std.specs.Prelude.{List};
    ghost use Rattle.plan_table.specs.declared.column.Column.{Column};
    ghost use Rattle.plan_table.specs.Entries.{seen, AreNamed};

    ghost Value = { List Column };

    ghost view = { λ s. seen s.columns.entries };

    // Each column stands under its name, and no name comes twice.
    ghost invariant = { λ s. AreNamed s.columns.entries };
}

impl Columns {
    /// No columns.
    pub fn new(alloc: Global) -> Self
        ensures { result ≡ [] }
    {
        Columns {
            columns: IndexMap::new(alloc),
        }
    }

    /// How many columns there are.
    pub fn len(&self) -> usize
        ensures value { result ≡ length self.now }
        ensures distinct { HasDistinctNames (types_of self.now) }
    {
        self.columns.len()
    }

    /// The column of a name, if it is there.
    pub fn get(&self, name: &str) -> Option<&Column>
        ensures { option_copied result ≡ column_of self.now name.now }
    {
        self.columns.get(name)
    }

    /// The column at a place, if there are so many.
    pub fn get_at_index(&self, index: usize) -> Option<&Column>
        ensures found { option_copied result ≡ slice_get self.now index }
        ensures within { IsSome result ↔ (index < length self.now) }
    {
        match self.columns.get_index(index) {
            None => None,
            Some((_, column)) => Some(column),
        }
    }

    /// The columns in order.
    pub fn iter(&self) -> Values<'_, String, Column>
        ensures rest { result ≡ self.now }
        ensures len { length result ≡ length self.now }
        ensures runs { ShowsInOrder (deref {X = ColumnType}) }
        ensures distinct { HasDistinctNames (types_of self.now) }
    {
        self.columns.values()
    }

    /// The columns in order, by value.
    pub fn into_values(self) -> IntoValues<String, Column>
        ensures rest { result ≡ self }
        ensures runs { GivesInOrder ColumnType }
        ensures distinct { HasDistinctNames (types_of self) }
    {
        self.columns.into_values()
    }

    /// Puts a column in the place of the one of its name, or last. Refuses for want of memory alone.
    pub fn with_column(&mut self, column: Column) -> Result<(), AllocError>
        ensures after { OnOk result (self.new ≡ with_column self.old column) }
        ensures unchanged { OnErr result (self.new ≡ self.old) }
    {
        let name = String::from_str(*self.columns.allocator(), column.name.as_str())?;
        let _ = self.columns.insert(name, column)?;
        Ok(())
    }
}

impl TryClone for Columns {
    fn try_clone(&self, alloc: Global) -> Result<Self, AllocError>
        ensures { IfOk result (λ r. r ≡ self.now) }
    {
        let mut copy = Columns::new(alloc);
        for column in self.iter() {
            copy.with_column(column.try_clone(alloc)?)?;
        }
        Ok(copy)
    }
}
