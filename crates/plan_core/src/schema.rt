//! Columns by name, in order. Contracts see a list of names and types.
ghost use Rattle.std.specs.Prelude.{◌≡◌, ◌<◌, ◌^◌, ◌≤◌, ◌↔◌, [], length, insert, IsSome, IfOk, IfErr, OnOk, OnErr, IfSome, IfNone, None, Some, slice_get, option_copied, List, ℕ};
ghost use Rattle.std.specs.Map.Iter.{ShowsInOrder, deref_pair};
ghost use Rattle.plan_core.specs.declared.data_type.DataType.{DataType};
ghost use Rattle.plan_core.specs.Columns.{HasDistinctNames, StandsAt, place_of, type_of, with_type, with_types, without};
ghost use Rattle.plan_core.specs.Errors.{item_at};

use crate::data_type::DataType;
use crate::error::{At, PolarsError, PolarsResult};
use crate::schema_iter::SchemaIter;
use crate::text::PlSmallStr;
use crate::try_clone::TryClone;
use indexmap::{IndexMap, map};
use std::alloc::{AllocError, Global};
use std::marker::Model;

/// Columns by name, in order. A contract sees the list of the names with their types.
#[derive(Drop, Debug)]
pub struct Schema {
    alloc: Global,
    // On the heap, so that what has a schema is small; absent while there are no columns.
    fields: Option<Box<IndexMap<String, DataType>>>,
}

impl Model for Schema {
    ghost use Rattle.std.specs.Prelude.{List, ℕ, [], map, option_map, string_bytes, unwrap_or};
    ghost use Rattle.plan_core.specs.declared.data_type.DataType.{DataType};

    ghost Value = { List (List ℕ × DataType) };

    ghost view = { λ s. unwrap_or (option_map (λ b. map (λ p. (string_bytes p.0, p.1)) b.value.entries) s.fields) [] };

    ghost use Rattle.plan_core.specs.Columns.{HasDistinctNames};

    // No name comes twice.
    ghost invariant = { λ s. HasDistinctNames (unwrap_or (option_map (λ b. map (λ p. (string_bytes p.0, p.1)) b.value.entries) s.fields) []) };
}

impl Schema {
    ghost use Rattle.std.specs.Prelude.{map as map_list, string_bytes};

    /// The columns by name, if there are any.
    fn fields(&self) -> Option<&IndexMap<String, DataType>>
        ensures some { IfSome result (λ m. map_list (λ p. (string_bytes p.0, p.1)) m.now.entries ≡ self.now) }
        ensures none { IfNone result (self.now ≡ []) }
        ensures distinct { HasDistinctNames self.now }
    {
        let Some(fields) = &self.fields else {
            return None;
        };
        Some(fields.as_ref())
    }

    /// The columns, as a run of entries.
    fn entries(&self) -> map::Slice<'_, String, DataType>
        ensures columns { map_list (λ p. (string_bytes p.0, p.1)) result ≡ self.now }
        ensures distinct { HasDistinctNames self.now }
    {
        let Some(fields) = self.fields() else {
            return map::Slice::new();
        };
        fields.as_slice()
    }

    /// The columns by value, for writing: the caller puts them back. Refuses for want of memory alone.
    fn take_fields(&mut self) -> Result<Box<IndexMap<String, DataType>>, AllocError>
        ensures taken { IfOk result (λ b. map_list (λ p. (string_bytes p.0, p.1)) b.value.entries ≡ self.old) }
        ensures unchanged { OnErr result (self.new ≡ self.old) }
        ensures distinct { HasDistinctNames self.old }
    {
        match self.fields.take() {
            Some(fields) => Ok(fields),
            None => Ok(Box::new(self.alloc, IndexMap::new(self.alloc))?),
        }
    }

    /// A schema without columns.
    pub fn new(alloc: Global) -> Self
        ensures { result ≡ [] }
    {
        Schema {
            alloc,
            fields: None,
        }
    }

    /// How many columns there are.
    pub fn len(&self) -> usize
        ensures value { result ≡ length self.now }
        ensures distinct { HasDistinctNames self.now }
        ensures small { result < 2 ^ 63 }
    {
        let Some(fields) = self.fields() else {
            return 0;
        };
        fields.len()
    }

    /// The type of a column, if it is there.
    pub fn get(&self, name: &str) -> Option<&DataType>
        ensures { option_copied result ≡ type_of self.now name.now }
    {
        let fields = self.fields()?;
        fields.get(name)
    }

    /// The type of a column. It refuses with `SchemaFieldNotFound` at place 0, of no node,
    /// where the column is absent.
    pub fn try_get(&self, name: &str) -> PolarsResult<&DataType>
        ensures found { IfOk result (λ dtype. type_of self.now name.now ≡ Some dtype.now) }
        ensures absent { OnErr result (type_of self.now name.now ≡ None) }
        ensures cause { IfErr result (λ error. error ≡ PolarsError.SchemaFieldNotFound (item_at 0)) }
    {
        match self.get(name) {
            Some(dtype) => Ok(dtype),
            None => Err(PolarsError::SchemaFieldNotFound(At {
                node: None,
                place: 0,
            })),
        }
    }

    /// The place of a column, counted from 0, if it is there.
    pub fn index_of(&self, name: &str) -> Option<usize>
        ensures place { result ≡ place_of self.now name.now }
        ensures stands { IfSome result (StandsAt self.now name.now) }
        ensures absent { IfNone result (type_of self.now name.now ≡ None) }
    {
        let fields = self.fields()?;
        fields.get_index_of(name)
    }

    /// The name and type of a column by its place.
    pub fn get_at_index(&self, index: usize) -> Option<(&str, &DataType)>
        ensures found { IfSome result (λ p. slice_get self.now index ≡ Some (p.0.now, p.1.now)) }
        ensures none { IfNone result (slice_get self.now index ≡ None) }
        ensures within { IsSome result ↔ (index < length self.now) }
    {
        match self.entries().get_index(index) {
            None => None,
            Some((name, dtype)) => Some((name.as_str(), dtype)),
        }
    }

    /// The columns in order, each by its name and type.
    pub fn iter(&self) -> SchemaIter<'_>
        ensures rest { result ≡ self.now }
        ensures len { length result ≡ length self.now }
        ensures runs { ShowsInOrder (deref_pair {K = List ℕ} {X = DataType}) }
        ensures distinct { HasDistinctNames self.now }
    {
        SchemaIter::new(self.entries().iter())
    }

    /// Gives a column a type: a new one goes last, and one that is there keeps its place.
    /// It gives the type that the column had, and refuses only where memory is short.
    pub fn with_column(
        &mut self,
        name: PlSmallStr,
        dtype: DataType,
    ) -> Result<Option<DataType>, AllocError>
        ensures given { IfOk result (λ old. old ≡ type_of self.old name) }
        ensures after { OnOk result (self.new ≡ with_type self.old name dtype) }
        ensures unchanged { OnErr result (self.new ≡ self.old) }
    {
        let mut fields = self.take_fields()?;
        let old = fields.insert(name.into_string(), dtype);
        self.fields = Some(fields);
        Ok(old?)
    }

    /// Gives each column of the other, in order, its type there, as `with_column` does. It
    /// refuses only where memory is short.
    pub fn merge(&mut self, other: Schema) -> Result<(), AllocError>
        ensures after { OnOk result (self.new ≡ with_types self.old other) }
        ensures unchanged { OnErr result (self.new ≡ self.old) }
    {
        let Some(mut others) = other.fields else {
            return Ok(());
        };
        let mut fields = self.take_fields()?;
        let appended = fields.append(&mut others);
        self.fields = Some(fields);
        Ok(appended?)
    }

    /// Puts a new column at a place, and those from there on move down. It refuses only where
    /// memory is short.
    pub fn insert_at_index(
        &mut self,
        index: usize,
        name: PlSmallStr,
        dtype: DataType,
    ) -> Result<(), AllocError>
        requires within { index ≤ length self.old }
        requires absent { type_of self.old name ≡ None }
        ensures after { OnOk result (self.new ≡ insert self.old index (name, dtype)) }
        ensures unchanged { OnErr result (self.new ≡ self.old) }
    {
        let mut fields = self.take_fields()?;
        let inserted = fields.shift_insert(index, name.into_string(), dtype);
        self.fields = Some(fields);
        let _ = inserted?;
        Ok(())
    }

    /// Takes a column out, and those after it move up.
    pub fn shift_remove(&mut self, name: &str) -> Option<DataType>
        ensures given { result ≡ type_of self.old name.now }
        ensures after { self.new ≡ without self.old name.now }
    {
        let mut fields = self.fields.take()?;
        let removed = fields.shift_remove(name);
        self.fields = Some(fields);
        removed
    }
}

impl TryClone for Schema {
    fn try_clone(&self, alloc: Global) -> Result<Self, AllocError>
        ensures { IfOk result (λ r. r ≡ self.now) }
    {
        let mut copy = Schema::new(alloc);
        for (name, dtype) in self.iter() {
            copy.with_column(PlSmallStr::new(alloc, name)?, *dtype)?;
        }
        Ok(copy)
    }
}

impl PartialEq for Schema {
    ghost use Rattle.std.specs.Prelude.{◌≡◌, ◌↔◌, IsTrue, nat_eq};
    ghost use Rattle.std.specs.Cmp.{and_per, on_per, partial_equiv_from_equiv, nat_eq_equiv};
    ghost use Rattle.std.specs.Cmp.Lexicographic.{lists_per, nat_list_eq_equiv};
    ghost use Rattle.plan_core.specs.Columns.{same_columns, type_number};

    ghost eq = { same_columns };

    ghost laws = { lists_per (and_per (on_per (λ c. c.0) (partial_equiv_from_equiv nat_list_eq_equiv)) (on_per (λ c. type_number c.1) (partial_equiv_from_equiv nat_eq_equiv))) };

    fn eq(&self, other: &Self) -> bool
        ensures value { result ≡ same_columns self.now other.now }
        ensures same { IsTrue result ↔ (self.now ≡ other.now) }
    {
        self.entries() == other.entries()
    }
}

impl Eq for Schema {
    ghost use Rattle.std.specs.Cmp.{and_equiv, on_equiv, nat_eq_equiv};
    ghost use Rattle.std.specs.Cmp.Lexicographic.{lists_equiv, nat_list_eq_equiv};
    ghost use Rattle.plan_core.specs.Columns.{type_number};

    ghost laws = { lists_equiv (and_equiv (on_equiv (λ c. c.0) nat_list_eq_equiv) (on_equiv (λ c. type_number c.1) nat_eq_equiv)) };
}
