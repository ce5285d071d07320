//! Unpivots: there are value columns, what is told are columns of the input, the value columns have one type, and no two columns
//! that are given have one name.
ghost use Rattle.std.specs.Prelude.{◌≡◌, ◌++◌, [], ◌∷◌, not, IfOk, IfSome, is_some};
ghost use Rattle.std.specs.List.{list_all};
ghost use Rattle.plan_core.specs.declared.data_type.DataType.TheVariants.{String as string_type};
ghost use Rattle.plan_core.specs.Columns.{names_of};
ghost use Rattle.plan_core.specs.Names.{has};
ghost use Rattle.plan_ir.specs.declared.functions.FunctionIR.TheVariants.{Unpivot};
ghost use Rattle.plan_ir.specs.Plans.{map_function};
ghost use Rattle.plan_meaning.specs.Functions.{all_differ, first_type as has_first_type, unpivoted_names, variable_name as variable_named, value_name as value_named};
ghost use Rattle.plan_frame.specs.Reshaped.{columns_at as columns_named, type_or as has_type_or};
ghost use Rattle.plan_meaning.specs.Checks.{is_column as is_one};
ghost use Rattle.plan_meaning.specs.Typing.{unpivot_checks, unpivot_name_checks, unpivot_type_checks, first_fault, Says};
ghost use Rattle.plan_meaning.specs.Typed.{IsNodeTyped};

use crate::names::{check_names_known, check_names_typed, is_column};
use crate::place::at;
use crate::unpivot_names::{value_name, value_names, variable_name};
use plan_core::{DataType, Node, PlSmallStr, PolarsError, PolarsResult, Schema, TryClone};
use plan_ir::UnpivotArgsIR;
use std::alloc::{AllocError, Global};

/// The type of a column, that of whole numbers where there is none.
fn type_or(schema: &Schema, name: &str) -> DataType
    ensures { result ≡ has_type_or schema.now name.now }
{
    schema.get(name).copied().unwrap_or(DataType::Int64)
}

/// The type of the first of some columns, that of whole numbers where there is none.
fn first_type(schema: &Schema, names: &[PlSmallStr]) -> DataType
    ensures { result ≡ has_first_type schema.now names.now }
{
    match names.first() {
        None => DataType::Int64,
        Some(name) => type_or(schema, name.as_str()),
    }
}

/// Whether each name is a column of the schema, with that type.
fn all_typed(names: &[PlSmallStr], dtype: DataType, schema: &Schema) -> bool
    ensures { result ≡ list_all (λ a. is_one schema.now (a, dtype)) names.now }
{
    names
        .iter()
        .all(|name| is_column(schema, name.as_str(), dtype))
}

/// The columns with one more, last; None exactly where one has its name. Refuses for want of memory alone.
fn with_new(
    mut columns: Schema,
    name: PlSmallStr,
    dtype: DataType,
) -> Result<Option<Schema>, AllocError>
    ensures columns { IfOk result (λ more. IfSome more (λ s. s ≡ columns ++ (name, dtype) ∷ [])) }
    ensures some { IfOk result (λ more. is_some more ≡ not (has (names_of columns) name)) }
{
    if columns.with_column(name, dtype)?.is_some() {
        return Ok(None);
    }
    Ok(Some(columns))
}

/// The columns of these names in order, with the types that they have in a schema; None exactly where a name stands twice.
/// Refuses for want of memory alone.
fn columns_at(
    alloc: Global,
    names: &[PlSmallStr],
    schema: &Schema,
) -> Result<Option<Schema>, AllocError>
    ensures columns { IfOk result (λ made. IfSome made (λ s. s ≡ columns_named schema.now names.now)) }
    ensures some { IfOk result (λ made. is_some made ≡ all_differ names.now) }
{
    let mut made = Schema::new(alloc);
    for name in names {
        let dtype = type_or(schema, name.as_str());
        let Some(more) = with_new(made, name.try_clone(alloc)?, dtype)? else {
            return Ok(None);
        };
        made = more;
    }
    Ok(Some(made))
}

/// The columns of an unpivot whose values have that type; None exactly where two of them have one name. Refuses for want of
/// memory alone.
fn unpivoted(
    alloc: Global,
    args: &UnpivotArgsIR,
    dtype: DataType,
    schema: &Schema,
) -> Result<Option<Schema>, AllocError>
    ensures columns { IfOk result (λ made. IfSome made (λ s. s ≡ columns_named schema.now args.now.index ++ (variable_named args.now, string_type) ∷ (value_named args.now, dtype) ∷ [])) }
    ensures some { IfOk result (λ made. is_some made ≡ all_differ (unpivoted_names args.now)) }
{
    let Some(repeated) = columns_at(alloc, args.index.as_slice(), schema)? else {
        return Ok(None);
    };
    let Some(named) = with_new(repeated, variable_name(alloc, args)?, DataType::String)? else {
        return Ok(None);
    };
    with_new(named, value_name(alloc, args)?, dtype)
}

/// What an unpivot tells, and then what it repeats, are columns of the schema, else `SchemaFieldNotFound` at the name; the first
/// one is at place 1.
#[tactic(auto, using(crate::proofs::CheckLemmas::fault_append), unfolding(plan_meaning::specs::Typing::unpivot_name_checks))]
fn check_names(
    node: Node,
    on: &[PlSmallStr],
    index: &[PlSmallStr],
    schema: &Schema,
) -> PolarsResult<()>
    ensures { Says result (first_fault node (unpivot_name_checks on.now index.now schema.now)) }
{
    check_names_known(node, 1, on, schema)?;
    check_names_known(node, 1 + on.len(), index, schema)
}

/// What an unpivot tells has that type, else `SchemaMismatch` at the name; the first one is at place 1. And so have all its value
/// columns, else `SchemaMismatch` at place 0.
#[tactic(auto, using(crate::proofs::CheckLemmas::fault_append), unfolding(plan_meaning::specs::Typing::unpivot_type_checks))]
fn check_types(
    node: Node,
    on: &[PlSmallStr],
    names: &[PlSmallStr],
    dtype: DataType,
    schema: &Schema,
) -> PolarsResult<()>
    ensures { Says result (first_fault node (unpivot_type_checks on.now names.now dtype schema.now)) }
{
    check_names_typed(node, on, dtype, schema)?;
    if all_typed(names, dtype, schema) {
        Ok(())
    } else {
        Err(PolarsError::SchemaMismatch(at(node, 0)))
    }
}

/// The columns of an unpivot over those of its input, or its first fault: `InvalidOperation` at place 0 where there are no value
/// columns; `SchemaFieldNotFound` at a name that is no column of the input, those of `on` first, from place 1 on, and then those
/// of `index`; `SchemaMismatch` at a name of `on` whose type isn't that of the first value column, and where `on` is empty at place
/// 0 where one has another type; and then `Duplicate` at place 0 where two columns that it gives have one name.
#[tactic(auto, using(crate::proofs::CheckLemmas::fault_append), unfolding(plan_meaning::specs::Typing::unpivot_checks))]
pub fn unpivot_schema(
    alloc: Global,
    node: Node,
    args: &UnpivotArgsIR,
    schema: &Schema,
) -> PolarsResult<Schema>
    ensures { IsNodeTyped result node (map_function (Unpivot args.now)) (schema.now ∷ []) }
{
    let on = args.on.as_slice();
    let names = value_names(alloc, args, schema)?;
    if names.len() == 0 {
        return Err(PolarsError::InvalidOperation(at(node, 0)));
    }
    check_names(node, on, args.index.as_slice(), schema)?;
    let dtype = first_type(schema, names.as_slice());
    check_types(node, on, names.as_slice(), dtype, schema)?;
    match unpivoted(alloc, args, dtype, schema)? {
        Some(made) => Ok(made),
        None => Err(PolarsError::Duplicate(at(node, 0))),
    }
}
