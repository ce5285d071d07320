//! A grouping: it has keys and no slice; its keys and aggregates have forms, read columns of the input and have types for a group,
//! no two have one name, the stored columns are those that they make, and each is named as it may be.
ghost use Rattle.std.specs.Prelude.{◌≡◌, ◌++◌, [], ◌∷◌, All, Bool, IfOk, is_some, List, map, OnOk};
ghost use Rattle.plan_core.specs.declared.error.PolarsError.TheVariants.{SchemaMismatch};
ghost use Rattle.plan_expr.specs.declared.aexpr.AExpr.{AExpr};
ghost use Rattle.plan_expr.specs.Operands.{IsExpr};
ghost use Rattle.plan_expr.specs.Exprs.{all_named_at, expr_at};
ghost use Rattle.plan_ir.specs.Plans.{group_by};
ghost use Rattle.plan_frame.specs.Exprs.{expr_type as type_of_expr};
ghost use Rattle.plan_frame.specs.Grouping.{gathered, gathered_expr, group_exprs};
ghost use Rattle.plan_meaning.specs.Checks.{each, type_checks};
ghost use Rattle.plan_meaning.specs.Typing.{is_built_group, first_fault, Says, IsMade};
ghost use Rattle.plan_frame.specs.Made.{made_schema as schema_made};
ghost use Rattle.plan_meaning.specs.Typed.{IsNodeTyped};

use plan_check_parts::{
    check_forms, check_leaves, check_namings, check_outputs, check_stored, check_types, made_schema,
};
use plan_core::{
    Arena, DataType, Items, Node, PlSmallStr, PolarsError, PolarsResult, Schema, TryClone,
};
use plan_expr::{AExpr, ExprIR, is_scalar, list_of, output_name};
use plan_frame::expr_type;
use plan_options::GroupbyOptions;
use plan_schema::at;
use std::alloc::{AllocError, Global};

/// Whether a grouping has a form that is built: some keys, and no slice.
#[tactic(auto, unfolding(plan_meaning::specs::Typing::is_built_group))]
fn is_built(keys: &[ExprIR], options: &GroupbyOptions) -> bool
    ensures { (ex : List AExpr) → result ≡ is_built_group (all_named_at ex keys.now) options.now }
{
    !keys.is_empty() && options.slice.is_none()
}

/// Appends copies of expressions, in order. Refuses for want of memory alone.
fn append_copies(alloc: Global, exprs: &[ExprIR], out: &mut Items<ExprIR>) -> Result<(), AllocError>
    ensures { OnOk result (out.new ≡ out.old ++ exprs.now) }
{
    for expr in exprs {
        out.push(expr.try_clone(alloc)?)?;
    }
    Ok(())
}

/// Copies of the keys, and then of the aggregates. Refuses for want of memory alone.
fn keys_and_aggs(
    alloc: Global,
    keys: &[ExprIR],
    aggs: &[ExprIR],
) -> Result<Items<ExprIR>, AllocError>
    ensures { IfOk result (λ exprs. exprs ≡ keys.now ++ aggs.now) }
{
    let mut exprs = Items::new(alloc);
    append_copies(alloc, keys, &mut exprs)?;
    append_copies(alloc, aggs, &mut exprs)?;
    Ok(exprs)
}

/// The type of what an aggregate is for a group, if it has one: that of the lists of its values where it has one for each row.
fn gathered_type(node: Node, ex: &Arena<AExpr>, schema: &Schema) -> Option<DataType>
    requires { IsExpr ex.now node }
    ensures { result ≡ type_of_expr (gathered_expr (expr_at ex.now node)) schema.now }
{
    let dtype = expr_type(node, ex, schema)?;
    if is_scalar(node, ex) {
        Some(dtype)
    } else {
        list_of(dtype)
    }
}

/// Each aggregate has a type for a group, else `SchemaMismatch` at the aggregate; the first one is at `place`.
fn check_gathered(
    node: Node,
    place: usize,
    aggs: &[ExprIR],
    ex: &Arena<AExpr>,
    schema: &Schema,
) -> PolarsResult<()>
    requires { All (λ e. IsExpr ex.now e.node) aggs.now }
    ensures { Says result (first_fault node (each SchemaMismatch place (λ e. is_some (type_of_expr e.expr schema.now)) (map gathered (all_named_at ex.now aggs.now)))) }
{
    for (i, agg) in aggs.iter().enumerate() {
        if gathered_type(agg.node, ex, schema).is_none() {
            return Err(PolarsError::SchemaMismatch(at(node, place.saturating_add(i))));
        }
    }
    Ok(())
}

/// Each key has a type, and each aggregate has one for a group; the first key stands at place 1, and the aggregates follow.
#[tactic(auto, using(crate::proofs::GroupFaults::group_types))]
fn check_group_types(
    node: Node,
    keys: &[ExprIR],
    aggs: &[ExprIR],
    ex: &Arena<AExpr>,
    schema: &Schema,
) -> PolarsResult<()>
    requires keys { All (λ e. IsExpr ex.now e.node) keys.now }
    requires aggs { All (λ e. IsExpr ex.now e.node) aggs.now }
    ensures { Says result (first_fault node (type_checks (group_exprs (all_named_at ex.now keys.now) (all_named_at ex.now aggs.now)) schema.now)) }
{
    check_types(node, keys, ex, schema)?;
    check_gathered(node, 1 + keys.len(), aggs, ex, schema)
}

/// The columns, and those that aggregates make for groups over the schema: each in the place of the one of its name, or last. An
/// aggregate without a type makes a column of Int64. Refuses for want of memory alone.
fn with_gathered(
    alloc: Global,
    base: Schema,
    aggs: &[ExprIR],
    ex: &Arena<AExpr>,
    schema: &Schema,
) -> Result<Schema, AllocError>
    requires { All (λ e. IsExpr ex.now e.node) aggs.now }
    ensures { IfOk result (λ made. made ≡ schema_made base (map gathered (all_named_at ex.now aggs.now)) schema.now) }
{
    let mut made = base;
    for agg in aggs {
        let name = PlSmallStr::new(alloc, output_name(&agg.output_name))?;
        let dtype = gathered_type(agg.node, ex, schema).unwrap_or(DataType::Int64);
        let _ = made.with_column(name, dtype)?;
    }
    Ok(made)
}

/// The columns that keys and aggregates make over the schema of a grouping's input: those of the keys, and then those of the
/// aggregates, with lists where an aggregate has a value for each row. What has no type makes a column of Int64. Refuses for want
/// of memory alone.
pub fn group_schema(
    alloc: Global,
    keys: &[ExprIR],
    aggs: &[ExprIR],
    ex: &Arena<AExpr>,
    schema: &Schema,
) -> Result<Schema, AllocError>
    requires keys { All (λ e. IsExpr ex.now e.node) keys.now }
    requires aggs { All (λ e. IsExpr ex.now e.node) aggs.now }
    ensures { IfOk result (λ made. made ≡ schema_made [] (group_exprs (all_named_at ex.now keys.now) (all_named_at ex.now aggs.now)) schema.now) }
{
    let made = made_schema(alloc, Schema::new(alloc), keys, ex, schema)?;
    with_gathered(alloc, made, aggs, ex, schema)
}

/// Checks the keys and the aggregates of a grouping over the columns of its input, and gives the columns of the grouping.
#[tactic(auto, using(crate::proofs::GroupFaults::group_fault))]
fn check_group(
    alloc: Global,
    node: Node,
    keys: &[ExprIR],
    aggs: &[ExprIR],
    stored: &Schema,
    ex: &Arena<AExpr>,
    schema: &Schema,
) -> PolarsResult<Schema>
    requires keys { All (λ e. IsExpr ex.now e.node) keys.now }
    requires aggs { All (λ e. IsExpr ex.now e.node) aggs.now }
    ensures { IsMade result node [] (group_exprs (all_named_at ex.now keys.now) (all_named_at ex.now aggs.now)) stored.now schema.now }
{
    let copies = keys_and_aggs(alloc, keys, aggs)?;
    let exprs = copies.as_slice();
    check_forms(node, exprs, ex)?;
    check_leaves(node, exprs, ex, schema)?;
    check_group_types(node, keys, aggs, ex, schema)?;
    check_outputs(alloc, node, exprs, ex)?;
    let made = group_schema(alloc, keys, aggs, ex, schema)?;
    check_stored(node, stored, &made)?;
    check_namings(node, exprs, ex)?;
    Ok(made)
}

/// The columns of a grouping over those of its input, or its first fault: `InvalidOperation` at place 0 where it has no keys or a
/// slice, and then that of its keys and aggregates.
pub fn group_by_schema(
    alloc: Global,
    node: Node,
    keys: &[ExprIR],
    aggs: &[ExprIR],
    stored: &Schema,
    options: &GroupbyOptions,
    ex: &Arena<AExpr>,
    schema: &Schema,
) -> PolarsResult<Schema>
    requires keys { All (λ e. IsExpr ex.now e.node) keys.now }
    requires aggs { All (λ e. IsExpr ex.now e.node) aggs.now }
    ensures { (ordered : Bool) → IsNodeTyped result node (group_by (all_named_at ex.now keys.now) (all_named_at ex.now aggs.now) stored.now ordered options.now) (schema.now ∷ []) }
{
    if !is_built(keys, options) {
        return Err(PolarsError::InvalidOperation(at(node, 0)));
    }
    check_group(alloc, node, keys, aggs, stored, ex, schema)
}
