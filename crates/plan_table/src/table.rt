//! A table: a height, and columns of that length.
ghost use Rattle.std.specs.Prelude.{◌≡◌, ◌↔◌, IsTrue};
ghost use Rattle.std.specs.List.{AllByRecursion};
ghost use Rattle.plan_core.specs.Columns.{HasDistinctNames};
ghost use Rattle.plan_table.specs.Tables.{HasRows, IsColumn, IsOf, IsPlainOf, types_of};

use crate::column::Column;
use crate::columns::Columns;
use crate::value::{AnyValue, PlainValue};
use plan_core::{DataType, PlainType};

/// A table: how many rows it has, and its columns in order.
#[derive(Drop)]
pub struct Table {
    /// How many rows there are.
    pub height: usize,
    /// The columns, each with a value for each row.
    pub columns: Columns,
}

/// Whether a single value is null or of a type.
fn is_plain_of(value: &PlainValue, plain: PlainType) -> bool
    ensures { IsTrue result ↔ IsPlainOf plain value.now }
{
    match (value, plain) {
        (PlainValue::Null, _)
        | (PlainValue::Int64(_), PlainType::Int64)
        | (PlainValue::String(_), PlainType::String)
        | (PlainValue::Boolean(_), PlainType::Boolean) => true,
        _ => false,
    }
}

/// Whether each single value is null or of a type.
fn are_plain_of(values: &[PlainValue], plain: PlainType) -> bool
    ensures { IsTrue result ↔ AllByRecursion (IsPlainOf plain) values.now }
{
    for value in values {
        if !is_plain_of(value, plain) {
            return false;
        }
    }
    true
}

/// Whether a value is null or of a type.
fn is_of(value: &AnyValue, dtype: DataType) -> bool
    ensures { IsTrue result ↔ IsOf dtype value.now }
{
    match (value, dtype) {
        (AnyValue::Null, _)
        | (AnyValue::Int64(_), DataType::Int64)
        | (AnyValue::String(_), DataType::String)
        | (AnyValue::Boolean(_), DataType::Boolean) => true,
        (AnyValue::List(values), DataType::List(plain)) => are_plain_of(values.as_slice(), plain),
        _ => false,
    }
}

/// Whether each value is null or of a type.
fn are_of(values: &[AnyValue], dtype: DataType) -> bool
    ensures { IsTrue result ↔ AllByRecursion (IsOf dtype) values.now }
{
    for value in values {
        if !is_of(value, dtype) {
            return false;
        }
    }
    true
}

/// Whether a column has so many values, each null or of its type.
fn is_column(column: &Column, height: usize) -> bool
    ensures { IsTrue result ↔ IsColumn height column.now }
{
    column.values.len() == height && are_of(column.values.as_slice(), column.dtype)
}

impl Table {
    /// Whether each column has a value for each row, null or of its type.
    pub fn is_formed(&self) -> bool
        ensures formed { IsTrue result ↔ HasRows self.now }
        ensures distinct { HasDistinctNames (types_of self.now.columns) }
    {
        for column in self.columns.iter() {
            if !is_column(column, self.height) {
                return false;
            }
        }
        true
    }
}
