//! What goes on top of a join over pruned sides.
ghost use Rattle.std.specs.Prelude.{◌≡◌, [], IfOk, if◌then◌else◌, map, unwrap_or};
ghost use Rattle.std.specs.Str.{bytes_eq};
ghost use Rattle.std.specs.List.{list_all};
ghost use Rattle.plan_core.specs.Columns.{names_of, type_of};
ghost use Rattle.plan_core.specs.declared.data_type.DataType.TheVariants.{Int64};
ghost use Rattle.plan_core.specs.Names.{has};
ghost use Rattle.plan_expr.specs.declared.expr_ir.ExprIR.{ExprIR};
ghost use Rattle.plan_expr.specs.declared.expr_ir.OutputName.TheVariants.{Alias, ColumnLhs};
ghost use Rattle.plan_expr.specs.Exprs.{all_named_at};
ghost use Rattle.plan_ir.specs.Plans.{Plan};
ghost use Rattle.plan_pruned.specs.JoinPruned.{are_called_alike, named_now, renaming, topped};
ghost use Rattle.plan_prune_parts.specs.Left.{name_now, put_on, top_nodes, StandFor};
ghost use Rattle.plan_pruned.specs.Renamed.{IsLonger};

use crate::names::JoinNames;
use plan_core::{Arena, DataType, Items, Names, PlSmallStr, Schema, TryClone};
use plan_expr::{AExpr, ExprIR, OutputName};
use plan_pruned::listed_names;
use std::alloc::{AllocError, Global};

/// What goes on top of a join.
#[derive(Drop)]
pub enum Top {
    /// Nothing: the join puts out the asked columns and no others, under their names.
    Nothing,
    /// A projection to the asked columns.
    Projection(Schema),
    /// A selection of the asked columns, some of which are called otherwise in the join, and its columns.
    Selection(Items<ExprIR>, Schema),
}

/// Whether each name is called as it was. Refuses for want of memory alone.
fn are_alike(alloc: Global, asked: &[PlSmallStr], names: &JoinNames) -> Result<bool, AllocError>
    ensures { IfOk result (λ alike. alike ≡ are_called_alike (name_now names.now) asked.now) }
{
    for name in asked {
        if names.now(alloc, name.as_str())? != *name {
            return Ok(false);
        }
    }
    Ok(true)
}

/// Whether all columns are asked.
fn are_asked(asked: &Names, columns: &Schema) -> bool
    ensures { result ≡ list_all (has asked.now) (names_of columns.now) }
{
    for (name, _) in columns.iter() {
        if !asked.contains(name) {
            return false;
        }
    }
    true
}

/// The type of a column, or Int64 where there is none.
fn type_now(columns: &Schema, name: &str) -> DataType
    ensures { result ≡ unwrap_or (type_of columns.now name.now) Int64 }
{
    match columns.get(name) {
        Some(dtype) => *dtype,
        None => DataType::Int64,
    }
}

/// The asked names, each with the type of the column that it is now; one that is none now has Int64. Refuses for want of memory alone.
fn named_columns(
    alloc: Global,
    asked: &Names,
    names: &JoinNames,
    columns: &Schema,
) -> Result<Schema, AllocError>
    ensures { IfOk result (λ named. named ≡ named_now (name_now names.now) columns.now asked.now) }
{
    let mut named = Schema::new(alloc);
    for i in 0..asked.len() {
        if let Some(name) = asked.get_at_index(i) {
            let now = names.now(alloc, name)?;
            named.with_column(
                PlSmallStr::new(alloc, name)?,
                type_now(columns, now.as_str()),
            )?;
        }
    }
    Ok(named)
}

/// The output name of the column that a name is now: the column's, or the name itself where the column is called otherwise.
fn output_of(alloc: Global, name: &PlSmallStr, now: &PlSmallStr) -> Result<OutputName, AllocError>
    ensures { IfOk result (λ output. output ≡ (if bytes_eq now.now name.now then ColumnLhs name.now else Alias name.now)) }
{
    let name = name.try_clone(alloc)?;
    if *now == name {
        Ok(OutputName::ColumnLhs(name))
    } else {
        Ok(OutputName::Alias(name))
    }
}

/// The column that each asked name is now, under the name. Refuses for want of memory alone; entries that nothing reaches may have been
/// added then.
fn named_exprs(
    alloc: Global,
    asked: &[PlSmallStr],
    names: &JoinNames,
    ex: &mut Arena<AExpr>,
) -> Result<Items<ExprIR>, AllocError>
    ensures place { IfOk result (λ exprs. StandFor ex.old ex.new (map (λ (e : ExprIR). e.node) exprs) []) }
    ensures exprs { IfOk result (λ exprs. all_named_at ex.new exprs ≡ map (renaming (name_now names.now)) asked.now) }
    ensures longer { IsLonger ex.old ex.new }
{
    let mut exprs = Items::new(alloc);
    for name in asked {
        let now = names.now(alloc, name.as_str())?;
        let output_name = output_of(alloc, name, &now)?;
        let node = ex.add(AExpr::Column(now))?;
        exprs.push(ExprIR { node, output_name })?;
    }
    Ok(exprs)
}

/// What goes on top of a join with these columns of which names are asked: nothing where its columns are these, under these names;
/// else a projection to them, and where some are called otherwise now a selection. Refuses for want of memory alone.
pub fn put_on_top(
    alloc: Global,
    asked: &Names,
    names: &JoinNames,
    columns: &Schema,
    ex: &mut Arena<AExpr>,
) -> Result<Top, AllocError>
    ensures top { IfOk result (λ top. (plan : Plan) → put_on ex.new top plan ≡ topped (name_now names.now) asked.now columns.now plan) }
    ensures place { IfOk result (λ top. StandFor ex.old ex.new (top_nodes top) []) }
    ensures longer { IsLonger ex.old ex.new }
{
    let list = listed_names(alloc, asked)?;
    if !are_alike(alloc, list.as_slice(), names)? {
        let exprs = named_exprs(alloc, list.as_slice(), names, ex)?;
        let named = named_columns(alloc, asked, names, columns)?;
        return Ok(Top::Selection(exprs, named));
    }
    if are_asked(asked, columns) {
        return Ok(Top::Nothing);
    }
    Ok(Top::Projection(named_columns(alloc, asked, names, columns)?))
}
