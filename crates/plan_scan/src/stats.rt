//! The columns of a part of a scan in which each has one value.
ghost use Rattle.std.specs.Prelude.{◌≡◌, IfOk};
ghost use Rattle.plan_scan.specs.Stats.{columns_of, AreOf};

use crate::field::Field;
use plan_core::{Items, Schema, TryClone};
use plan_table::AnyValue;
use std::alloc::{AllocError, Global};
use std::marker::Model;

/// A column that has one value in a part of a scan.
#[derive(Drop, PartialEq, Eq, Debug)]
pub struct ColumnStats {
    /// Its name and type.
    pub field: Field,
    /// Its value: null, or of the type.
    pub value: AnyValue,
}

impl TryClone for ColumnStats {
    fn try_clone(&self, alloc: Global) -> Result<Self, AllocError>
        ensures { IfOk result (λ r. r ≡ self.now) }
    {
        Ok(ColumnStats {
            field: self.field.try_clone(alloc)?,
            value: self.value.try_clone(alloc)?,
        })
    }
}

/// The columns that have one value each in a part of a scan. A contract sees the list of them.
#[derive(Drop, PartialEq, Eq, Debug)]
pub struct BatchStats {
    schema: Schema,
    column_stats: Items<ColumnStats>,
}

impl Model for BatchStats {
    ghost use Rattle.std.specs.Prelude.{List};
    ghost use Rattle.plan_scan.specs.declared.stats.ColumnStats.{ColumnStats};
    ghost use Rattle.std.proofs.Common.{ap};
    ghost use Rattle.plan_core.specs.Columns.{Columns};
    ghost use Rattle.plan_scan.specs.Stats.{columns_of, AreOf};

    ghost Value = { List ColumnStats };

    ghost view = { λ b. b.column_stats };

    // There is one entry for each column of the schema, in its order, with its name and type.
    ghost invariant = { λ b. AreOf b.schema b.column_stats };

    ghost inverse = { λ stats. record { schema = columns_of stats; column_stats = stats } };

    ghost inverse_ok = { λ b h. ap (λ (columns : Columns). record { schema = columns; column_stats = b.column_stats }) h.named };
}

impl BatchStats {
    /// The columns of a schema with their values.
    pub(crate) fn new(schema: Schema, column_stats: Items<ColumnStats>) -> Self
        requires { AreOf schema column_stats }
        ensures { result ≡ column_stats }
    {
        BatchStats {
            schema,
            column_stats,
        }
    }

    /// The names and types of the columns, in order.
    pub fn schema(&self) -> &Schema
        ensures { result.now ≡ columns_of self.now }
    {
        &self.schema
    }

    /// The columns with their values, one for each column of the schema, in its order; each value is null or of its
    /// column's type.
    pub fn column_stats(&self) -> &[ColumnStats]
        ensures value { result.now ≡ self.now }
        ensures formed { AreOf (columns_of self.now) self.now }
    {
        self.column_stats.as_slice()
    }
}

impl TryClone for BatchStats {
    fn try_clone(&self, alloc: Global) -> Result<Self, AllocError>
        ensures { IfOk result (λ r. r ≡ self.now) }
    {
        Ok(BatchStats::new(
            self.schema.try_clone(alloc)?,
            self.column_stats.try_clone(alloc)?,
        ))
    }
}
