//! The hive columns of one source.
ghost use Rattle.std.specs.Prelude.{◌≡◌, ◌<◌, [], ◌∷◌, length, map, All, IfOk, OnOk, OnErr};
ghost use Rattle.plan_core.specs.Names.{with_names};
ghost use Rattle.plan_scan.specs.Stats.{columns_of, named_among, one_row, places_among, stat, stats_at, with_values, AreOf, Fits};

use crate::field::Field;
use crate::stats::{BatchStats, ColumnStats};
use plan_core::{DataType, Items, Names, PlSmallStr, Schema, TryClone};
use plan_table::{AnyValue, Column};
use std::alloc::{AllocError, Global};
use std::marker::Model;

/// The columns that the folders of one source name: each has one value in all its rows. A contract sees the list of them.
#[derive(Drop, PartialEq, Eq, Debug)]
pub struct HivePartitions {
    stats: BatchStats,
}

impl Model for HivePartitions {
    ghost use Rattle.std.specs.Prelude.{List};
    ghost use Rattle.plan_scan.specs.declared.stats.ColumnStats.{ColumnStats};

    ghost Value = { List ColumnStats };

    ghost view = { λ h. h.stats };

    ghost inverse = { λ stats. record { stats = stats } };
}

impl HivePartitions {
    /// The columns of a schema with these values, one for each. It refuses only where memory is short.
    pub fn new(alloc: Global, schema: Schema, values: Items<AnyValue>) -> Result<Self, AllocError>
        requires { Fits schema values }
        ensures { IfOk result (λ h. h ≡ with_values schema values) }
    {
        let column_stats = stats_with(alloc, &schema, values.as_slice())?;
        drop(values);
        Ok(HivePartitions::of(schema, column_stats))
    }

    /// The columns of a schema, each with its value.
    pub fn of(schema: Schema, column_stats: Items<ColumnStats>) -> Self
        requires { AreOf schema column_stats }
        ensures { result ≡ column_stats }
    {
        HivePartitions {
            stats: BatchStats::new(schema, column_stats),
        }
    }

    /// The columns whose names are among these, in order, and their places, counted from 0, in the same order. It refuses
    /// only where memory is short.
    pub fn get_projection_schema_and_indices(
        &self,
        alloc: Global,
        names: &[PlSmallStr],
    ) -> Result<(Schema, Items<usize>), AllocError>
        ensures schema { IfOk result (λ r. r.0 ≡ named_among names.now (columns_of self.now)) }
        ensures places { IfOk result (λ r. r.1 ≡ places_among names.now 0 (columns_of self.now)) }
        ensures within { IfOk result (λ r. All (λ i. i < length self.now) r.1) }
        ensures agree { IfOk result (λ r. columns_of (stats_at self.now r.1) ≡ r.0) }
    {
        let wanted = once(alloc, names)?;
        let mut schema = Schema::new(alloc);
        let mut places = Items::new(alloc);
        let columns = self.stats.schema();
        put_among(alloc, columns, &wanted, &mut schema, &mut places)?;
        drop(wanted);
        Ok((schema, places))
    }

    /// Keeps the columns at these places, in the order of the places; the schema is theirs. It refuses only where memory is
    /// short, and then all columns stay.
    pub fn apply_projection(
        &mut self,
        alloc: Global,
        new_schema: Schema,
        column_indices: &[usize],
    ) -> Result<(), AllocError>
        requires within { All (λ i. i < length self.old) column_indices.now }
        requires agree { columns_of (stats_at self.old column_indices.now) ≡ new_schema }
        ensures after { OnOk result (self.new ≡ stats_at self.old column_indices.now) }
        ensures unchanged { OnErr result (self.new ≡ self.old) }
    {
        let kept = copies_at(alloc, self.stats.column_stats(), column_indices)?;
        self.stats = BatchStats::new(new_schema, kept);
        Ok(())
    }

    /// The columns with their values.
    pub fn get_statistics(&self) -> &BatchStats
        ensures { result.now ≡ self.now }
    {
        &self.stats
    }

    /// Each column as one of a single row, in order. It refuses only where memory is short.
    pub fn materialize_partition_columns(&self, alloc: Global) -> Result<Items<Column>, AllocError>
        ensures { IfOk result (λ columns. columns ≡ map one_row self.now) }
    {
        let mut columns = Items::new(alloc);
        for stat in self.stats.column_stats() {
            columns.push(row_of(alloc, stat)?)?;
        }
        Ok(columns)
    }
}

/// A column with a value.
fn stat_of(
    alloc: Global,
    name: &str,
    dtype: DataType,
    value: &AnyValue,
) -> Result<ColumnStats, AllocError>
    ensures { IfOk result (λ s. s ≡ stat (name.now, dtype) value.now) }
{
    let name = PlSmallStr::new(alloc, name)?;
    let field = Field { name, dtype };
    let value = value.try_clone(alloc)?;
    Ok(ColumnStats { field, value })
}

/// The columns of a schema with these values, one for each.
fn stats_with(
    alloc: Global,
    schema: &Schema,
    values: &[AnyValue],
) -> Result<Items<ColumnStats>, AllocError>
    requires { Fits schema.now values.now }
    ensures { IfOk result (λ stats. stats ≡ with_values schema.now values.now) }
{
    let mut stats = Items::new(alloc);
    for (i, value) in values.iter().enumerate() {
        if let Some((name, dtype)) = schema.get_at_index(i) {
            stats.push(stat_of(alloc, name, *dtype, value)?)?;
        }
    }
    Ok(stats)
}

/// Copies of the columns at these places, in the order of the places.
fn copies_at(
    alloc: Global,
    stats: &[ColumnStats],
    places: &[usize],
) -> Result<Items<ColumnStats>, AllocError>
    requires { All (λ i. i < length stats.now) places.now }
    ensures { IfOk result (λ kept. kept ≡ stats_at stats.now places.now) }
{
    let mut kept = Items::new(alloc);
    for i in places {
        kept.push(stats[*i].try_clone(alloc)?)?;
    }
    Ok(kept)
}

/// A list of one value.
fn alone(alloc: Global, value: &AnyValue) -> Result<Items<AnyValue>, AllocError>
    ensures { IfOk result (λ values. values ≡ value.now ∷ []) }
{
    let mut values = Items::new(alloc);
    values.push(value.try_clone(alloc)?)?;
    Ok(values)
}

/// A column as one of a single row.
fn row_of(alloc: Global, stat: &ColumnStats) -> Result<Column, AllocError>
    ensures { IfOk result (λ column. column ≡ one_row stat.now) }
{
    let name = stat.field.name.try_clone(alloc)?;
    let values = alone(alloc, &stat.value)?;
    Ok(Column {
        name,
        dtype: stat.field.dtype,
        values,
    })
}

/// The names, each once.
fn once(alloc: Global, names: &[PlSmallStr]) -> Result<Names, AllocError>
    ensures { IfOk result (λ kept. kept ≡ with_names [] names.now) }
{
    let mut kept = Names::new(alloc);
    for name in names {
        kept.add(name.as_str())?;
    }
    Ok(kept)
}

/// Puts the columns whose names are wanted into a schema that has none, in order, and their places into a list that has none.
fn put_among(
    alloc: Global,
    columns: &Schema,
    wanted: &Names,
    schema: &mut Schema,
    places: &mut Items<usize>,
) -> Result<(), AllocError>
    requires schema { schema.old ≡ [] }
    requires places { places.old ≡ [] }
    ensures schema { OnOk result (schema.new ≡ named_among wanted.now columns.now) }
    ensures places { OnOk result (places.new ≡ places_among wanted.now 0 columns.now) }
{
    for i in 0..columns.len() {
        if let Some((name, dtype)) = columns.get_at_index(i) {
            if wanted.contains(name) {
                schema.with_column(PlSmallStr::new(alloc, name)?, *dtype)?;
                places.push(i)?;
            }
        }
    }
    Ok(())
}

impl TryClone for HivePartitions {
    fn try_clone(&self, alloc: Global) -> Result<Self, AllocError>
        ensures { IfOk result (λ r. r ≡ self.now) }
    {
        Ok(HivePartitions {
            stats: self.stats.try_clone(alloc)?,
        })
    }
}
