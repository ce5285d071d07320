//! A count of the rows of files has one column, whatever its input has.
ghost use Rattle.std.specs.Prelude.{◌≡◌, [], ◌∷◌, IfOk};
ghost use Rattle.plan_core.specs.declared.data_type.DataType.TheVariants.{Int64};
ghost use Rattle.plan_meaning.specs.Functions.{count_name as named_of};

use crate::unpivot_names::name_or;
use plan_core::{DataType, PlSmallStr, Schema};
use std::alloc::{AllocError, Global};

/// The name of the column with the number of the rows: the alias, or else `len`. Refuses for want of memory alone.
pub fn count_name(alloc: Global, alias: &Option<PlSmallStr>) -> Result<PlSmallStr, AllocError>
    ensures { IfOk result (λ a. a ≡ named_of alias.now) }
{
    name_or(alloc, alias, "len")
}

/// The only column of a count of the rows of files: a whole number. Refuses for want of memory alone.
pub fn count_schema(alloc: Global, alias: &Option<PlSmallStr>) -> Result<Schema, AllocError>
    ensures { IfOk result (λ s. s ≡ (named_of alias.now, Int64) ∷ []) }
{
    let mut columns = Schema::new(alloc);
    columns.with_column(count_name(alloc, alias)?, DataType::Int64)?;
    Ok(columns)
}
