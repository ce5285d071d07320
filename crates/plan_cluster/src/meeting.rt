//! What becomes of an addition directly on another.
ghost use Rattle.std.specs.Prelude.{◌≡◌, ◌++◌, All, IfOk, OnOk};
ghost use Rattle.plan_core.specs.Columns.{with_types};
ghost use Rattle.plan_core.specs.Names.{AreDistinct};
ghost use Rattle.plan_expr.specs.Operands.{IsExpr};
ghost use Rattle.plan_pruned.specs.Pruned.{typed_names};
ghost use Rattle.plan_cluster.specs.ExprNames.{expr_names, exprs_replaced};
ghost use Rattle.plan_cluster.specs.Layers.{IsOnce, layer_exprs};
ghost use Rattle.plan_cluster.specs.Meetings.{IsLeft, IsMet, exprs_sunk, merged_into, sunk_to};
ghost use Rattle.plan_cluster.specs.declared.layer.Layer.TheVariants.{Adds};

use crate::layer::{Addition, Layer};
use crate::parts::Parts;
use crate::places::Places;
use plan_core::{Arena, Items, PlSmallStr, Schema, TryClone};
use plan_expr::{AExpr, ExprIR, output_name};
use std::alloc::{AllocError, Global};
use std::mem;

/// What became of an addition directly on another.
#[derive(Drop)]
pub enum Meeting {
    /// Both are one, the lower one.
    Merged,
    /// Both stay as they are.
    Rests,
    /// Expressions moved down.
    Moved,
    /// Expressions moved down, and a projection to these columns goes on top.
    Restores(Schema),
}

/// Gives the names of expressions, in order, the types that they have in a schema. Refuses for want of memory alone.
fn put_types(
    alloc: Global,
    exprs: &[ExprIR],
    from: &Schema,
    to: &mut Schema,
) -> Result<(), AllocError>
    ensures { OnOk result (to.new ≡ with_types to.old (typed_names from.now (expr_names exprs.now))) }
{
    for expr in exprs {
        let name = output_name(&expr.output_name);
        if let Some(dtype) = from.get(name) {
            let _ = to.with_column(PlSmallStr::new(alloc, name)?, *dtype)?;
        }
    }
    Ok(())
}

/// Adds copies of the lower expressions, each that has the name of one of the others replaced by it. Refuses for want of memory alone.
fn add_replaced(
    alloc: Global,
    takes: &[ExprIR],
    places: &Places,
    lower: &[ExprIR],
    exprs: &mut Items<ExprIR>,
) -> Result<(), AllocError>
    requires { places.now ≡ expr_names takes.now }
    ensures { OnOk result (exprs.new ≡ exprs.old ++ exprs_replaced takes.now lower.now) }
{
    for expr in lower {
        let made = places
            .find(takes, output_name(&expr.output_name))
            .unwrap_or(expr);
        exprs.push(made.try_clone(alloc)?)?;
    }
    Ok(())
}

/// Adds copies of expressions. Refuses for want of memory alone.
fn add_copies(alloc: Global, moves: &[ExprIR], exprs: &mut Items<ExprIR>) -> Result<(), AllocError>
    ensures { OnOk result (exprs.new ≡ exprs.old ++ moves.now) }
{
    for expr in moves {
        exprs.push(expr.try_clone(alloc)?)?;
    }
    Ok(())
}

/// The lower expressions with those that take their places, and those that move behind them. Refuses for want of memory alone.
fn sunk(alloc: Global, parts: &Parts, lower: &[ExprIR]) -> Result<Items<ExprIR>, AllocError>
    requires { AreDistinct (expr_names parts.now.takes) }
    ensures { IfOk result (λ exprs. exprs ≡ exprs_sunk parts.now lower.now) }
{
    let places = Places::of(alloc, parts.takes.as_slice())?;
    let mut exprs = Items::new(alloc);
    add_replaced(alloc, parts.takes.as_slice(), &places, lower, &mut exprs)?;
    add_copies(alloc, parts.moves.as_slice(), &mut exprs)?;
    Ok(exprs)
}

/// Makes one of both additions, in the place of the lower one. Refuses for want of memory alone.
fn merge(
    alloc: Global,
    parts: &Parts,
    upper: &mut Addition,
    lower: &mut Addition,
) -> Result<(), AllocError>
    requires { AreDistinct (expr_names parts.now.takes) }
    ensures { OnOk result (lower.new ≡ merged_into parts.now upper.old lower.old) }
{
    lower.exprs = sunk(alloc, parts, lower.exprs.as_slice())?;
    lower.options = upper.options.merge_options(&lower.options);
    mem::swap(&mut upper.schema, &mut lower.schema);
    Ok(())
}

/// Moves what doesn't stay into the lower addition. Refuses for want of memory alone.
fn sink(
    alloc: Global,
    parts: &Parts,
    upper: &Addition,
    lower: &mut Addition,
) -> Result<(), AllocError>
    requires { AreDistinct (expr_names parts.now.takes) }
    ensures { OnOk result (lower.new ≡ sunk_to parts.now upper.now lower.old) }
{
    lower.exprs = sunk(alloc, parts, lower.exprs.as_slice())?;
    lower.options = upper.options.merge_options(&lower.options);
    put_types(
        alloc,
        parts.takes.as_slice(),
        &upper.schema,
        &mut lower.schema,
    )?;
    put_types(
        alloc,
        parts.moves.as_slice(),
        &upper.schema,
        &mut lower.schema,
    )
}

/// Leaves what stays in the upper addition, whose columns are those of the lower one then, with its own. Gives the columns that it had.
/// Refuses for want of memory alone.
fn reorder(alloc: Global, upper: &mut Addition, lower: &Addition) -> Result<Schema, AllocError>
    ensures schema { IfOk result (λ schema. schema ≡ upper.old.schema) }
    ensures upper { OnOk result (upper.new ≡ record upper.old { schema = with_types lower.now.schema (typed_names upper.old.schema (expr_names upper.old.exprs)) }) }
{
    let mut schema = lower.schema.try_clone(alloc)?;
    put_types(alloc, upper.exprs.as_slice(), &upper.schema, &mut schema)?;
    Ok(mem::replace(&mut upper.schema, schema))
}

/// Moves what doesn't stay into the lower addition, and leaves what stays in the upper one. Refuses for want of memory alone.
fn part(
    alloc: Global,
    parts: Parts,
    upper: &mut Addition,
    lower: &mut Addition,
) -> Result<Meeting, AllocError>
    requires { AreDistinct (expr_names parts.takes) }
    ensures lower { OnOk result (lower.new ≡ sunk_to parts upper.old lower.old) }
    ensures upper { IfOk result (λ m. IsLeft parts upper.old lower.old upper.new m) }
{
    sink(alloc, &parts, upper, lower)?;
    let from_behind = parts.from_behind;
    upper.exprs = parts.stays;
    upper.options = lower.options;
    if !from_behind {
        return Ok(Meeting::Moved);
    }
    Ok(Meeting::Restores(reorder(alloc, upper, lower)?))
}

/// An addition directly on another meets it: where none of its expressions has to stay they become one, else those that needn't stay
/// move down. Refuses for want of memory alone.
fn meet(
    alloc: Global,
    upper: &mut Addition,
    lower: &mut Addition,
    ex: &Arena<AExpr>,
) -> Result<Meeting, AllocError>
    requires stand { All (λ e. IsExpr ex.now e.node) upper.old.exprs }
    requires upper_once { AreDistinct (expr_names upper.old.exprs) }
    requires lower_once { AreDistinct (expr_names lower.old.exprs) }
    ensures { IfOk result (λ m. IsMet ex.now (Adds upper.old) (Adds lower.old) (Adds upper.new) (Adds lower.new) m) }
{
    let parts = Parts::of(alloc, upper.exprs.as_slice(), lower.exprs.as_slice(), ex)?;
    if parts.stays.len() == 0 {
        merge(alloc, &parts, upper, lower)?;
        return Ok(Meeting::Merged);
    }
    if parts.takes.len() == 0 && parts.moves.len() == 0 {
        return Ok(Meeting::Rests);
    }
    part(alloc, parts, upper, lower)
}

/// A layer directly on another meets it; only additions change. Refuses for want of memory alone.
pub fn meet_layers(
    alloc: Global,
    upper: &mut Layer,
    lower: &mut Layer,
    ex: &Arena<AExpr>,
) -> Result<Meeting, AllocError>
    requires stand { All (λ e. IsExpr ex.now e.node) (layer_exprs upper.old) }
    requires upper_once { IsOnce upper.old }
    requires lower_once { IsOnce lower.old }
    ensures { IfOk result (λ m. IsMet ex.now upper.old lower.old upper.new lower.new m) }
{
    match upper {
        Layer::Projects(_) => Ok(Meeting::Rests),
        Layer::Adds(above) => {
            match lower {
                Layer::Projects(_) => Ok(Meeting::Rests),
                Layer::Adds(below) => meet(alloc, above, below, ex),
            }
        }
    }
}
