//! The columns that expressions make over others.
ghost use Rattle.std.specs.Prelude.{◌≡◌, ◌⊎◌, ◌++◌, ◌∷◌, [], true, not, Some, None, if◌then◌else◌, IfOk, IfErr, OnOk};
ghost use Rattle.std.specs.Bool.{OnTrue};
ghost use Rattle.std.specs.Option.{option_or};
ghost use Rattle.plan_core.specs.Columns.{names_of};
ghost use Rattle.plan_core.specs.Names.{has};
ghost use Rattle.plan_dsl.specs.Names.{output_name};
ghost use Rattle.plan_dsl_schema.specs.Schemas.{column_type as type_of_column, expr_fault, made_columns, schema_fault};
ghost use Rattle.plan_dsl.specs.Typing.{has_form};

use crate::typing::expr_type;
use plan_core::{DataType, PlSmallStr, PolarsError, PolarsResult, Schema};
use plan_dsl::Expr;
use plan_expr::list_of;
use plan_options::item;
use std::alloc::{AllocError, Global};

/// Where expressions are evaluated.
#[derive(Clone, Copy, PartialEq, Eq, Hash, Debug)]
pub enum Context {
    /// Over the groups of rows, each expression in every group.
    Aggregation,
    /// Over all rows.
    Default,
}

/// The columns that the expressions make over those of the schema, each under the name and with the type of its
/// expression; in an aggregation what isn't scalar is the list of its values.
///
/// It refuses, memory aside, at the first expression, by its place, that has no form in plans (`InvalidOperation`), or
/// else reads a column that is absent (`SchemaFieldNotFound`), or else has no type (`SchemaMismatch`), as a list has
/// none in an aggregation, unless it is scalar. Where there is no such expression, it refuses at the first one that
/// repeats a name (`Duplicate`).
pub fn expressions_to_schema(
    alloc: Global,
    exprs: &[Expr],
    schema: &Schema,
    context: Context,
) -> PolarsResult<Schema>
    ensures columns { IfOk result (λ made. made ≡ made_columns context schema.now exprs.now) }
    ensures faultless { OnOk result (schema_fault context schema.now exprs.now ≡ None) }
    ensures refused { IfErr result (λ fault. fault ≡ PolarsError.OutOfMemory ⊎ (schema_fault context schema.now exprs.now ≡ Some fault)) }
{
    let mut made = Schema::new(alloc);
    let mut repeated = None;
    for (place, expr) in exprs.iter().enumerate() {
        let dtype = column_type(expr, schema, context, place)?;
        let name = PlSmallStr::new(alloc, expr.form_name())?;
        let is_new = add_column(&mut made, name, dtype)?;
        repeated = first_repeated(repeated, is_new, place);
    }
    match repeated {
        Some(place) => Err(PolarsError::Duplicate(item(place))),
        None => Ok(made),
    }
}

/// The first place at which a name is repeated: the one so far, or else this one, unless its name is new.
fn first_repeated(so_far: Option<usize>, is_new: bool, place: usize) -> Option<usize>
    ensures { result ≡ option_or so_far (if is_new then None else Some place) }
{
    match so_far {
        Some(first) => Some(first),
        None => { if is_new { None } else { Some(place) } }
    }
}

/// The type of the column that an expression makes. It is a fault where the expression has no form in plans, reads a
/// column that is absent, or has no type.
fn column_type(
    expr: &Expr,
    schema: &Schema,
    context: Context,
    place: usize,
) -> PolarsResult<DataType>
    ensures dtype { IfOk result (λ dtype. type_of_column context schema.now expr.now ≡ Some dtype) }
    ensures formed { OnOk result (has_form expr.now ≡ true) }
    ensures faultless { OnOk result (expr_fault context schema.now place expr.now ≡ None) }
    ensures refused { IfErr result (λ fault. expr_fault context schema.now place expr.now ≡ Some fault) }
{
    if !expr.has_form() {
        return Err(PolarsError::InvalidOperation(item(place)));
    }
    if !expr.reads_only(schema) {
        return Err(PolarsError::SchemaFieldNotFound(item(place)));
    }
    match made_type(expr, schema, context) {
        Some(dtype) => Ok(dtype),
        None => Err(PolarsError::SchemaMismatch(item(place))),
    }
}

/// The type of the column that an expression makes, if it has one.
fn made_type(expr: &Expr, schema: &Schema, context: Context) -> Option<DataType>
    ensures { result ≡ type_of_column context schema.now expr.now }
{
    let dtype = expr_type(expr, schema)?;
    match context {
        Context::Default => Some(dtype),
        Context::Aggregation => {
            if expr.is_scalar() {
                Some(dtype)
            } else {
                list_of(dtype)
            }
        }
    }
}

/// Puts a column last, unless its name is there, and says whether it isn't.
fn add_column(made: &mut Schema, name: PlSmallStr, dtype: DataType) -> Result<bool, AllocError>
    ensures new { IfOk result (λ new. new ≡ not (has (names_of made.old) name)) }
    ensures added { IfOk result (λ new. OnTrue new (made.new ≡ made.old ++ (name, dtype) ∷ [])) }
{
    if made.get(name.as_str()).is_some() {
        return Ok(false);
    }
    made.with_column(name, dtype)?;
    Ok(true)
}
