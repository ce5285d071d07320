//! The right keys that fill left ones, where a full join puts each pair of keys out as one.
ghost use Rattle.std.specs.Prelude.{◌≡◌, None, replicate, IfOk};
ghost use Rattle.plan_core.specs.Columns.{HasDistinctNames};
ghost use Rattle.plan_join.specs.Naming.{key_columns, LieIn};
ghost use Rattle.plan_join_eval.specs.Fills.{ArePartners};
ghost use Rattle.plan_join.specs.Sides.{filler, fills, partner};

use plan_core::{Arena, Items, PlSmallStr, Schema};
use plan_expr::{AExpr, ExprIR};
use plan_options::{JoinArgs, JoinCoalesce, JoinType};
use std::alloc::{AllocError, Global};

/// The columns among keys, in order.
fn key_names(
    alloc: Global,
    keys: &[ExprIR],
    ex: &Arena<AExpr>,
) -> Result<Items<PlSmallStr>, AllocError>
    requires { LieIn ex.now keys.now }
    ensures { IfOk result (λ names. names ≡ key_columns ex.now keys.now) }
{
    let mut names = Items::new(alloc);
    for key in keys {
        if let Some(name) = ex.get(key.node).column_name() {
            names.push(PlSmallStr::new(alloc, name)?)?;
        }
    }
    Ok(names)
}

/// Whether a join fills left keys from right ones: a full join that puts each pair of keys out as one.
fn is_filling(args: &JoinArgs) -> bool
    ensures { result ≡ fills args.now.how args.now.coalesce }
{
    matches!(args.how, JoinType::Full) && matches!(args.coalesce, JoinCoalesce::CoalesceColumns)
}

/// So many places, none of them told.
fn no_places(alloc: Global, count: usize) -> Result<Vec<Option<usize>>, AllocError>
    ensures { IfOk result (λ places. places.items ≡ replicate count None) }
{
    let mut places = Vec::new(alloc);
    for _ in 0..count {
        places.push(None)?;
    }
    Ok(places)
}

/// For each left column, in order, the place of the right column that is the right key of the first pair of keys whose left
/// key it is; none where it is no left key, or where there is no such right column.
fn partners(
    alloc: Global,
    left_keys: &[PlSmallStr],
    right_keys: &[PlSmallStr],
    left: &Schema,
    right: &Schema,
) -> Result<Vec<Option<usize>>, AllocError>
    requires { HasDistinctNames left.now }
    ensures { IfOk result (λ places. ArePartners left.now right.now (partner left_keys.now right_keys.now) places.items) }
{
    let mut places = no_places(alloc, left.len())?;
    let mut rest = left_keys.len().min(right_keys.len());
    while rest > 0 {
        rest -= 1;
        if let Some(place) = left.index_of(left_keys[rest].as_str()) {
            places[place] = right.index_of(right_keys[rest].as_str());
        }
    }
    Ok(places)
}

/// For each left column, in order, the place of the right column from which the join fills it where the left row is absent.
/// Refuses for want of memory alone.
pub fn fillers(
    alloc: Global,
    args: &JoinArgs,
    left_on: &[ExprIR],
    right_on: &[ExprIR],
    left: &Schema,
    right: &Schema,
    ex: &Arena<AExpr>,
) -> Result<Vec<Option<usize>>, AllocError>
    requires left_keys { LieIn ex.now left_on.now }
    requires right_keys { LieIn ex.now right_on.now }
    requires distinct { HasDistinctNames left.now }
    ensures { IfOk result (λ places. ArePartners left.now right.now (filler args.now (key_columns ex.now left_on.now) (key_columns ex.now right_on.now)) places.items) }
{
    if !is_filling(args) {
        return no_places(alloc, left.len());
    }
    let left_keys = key_names(alloc, left_on, ex)?;
    let right_keys = key_names(alloc, right_on, ex)?;
    partners(
        alloc,
        left_keys.as_slice(),
        right_keys.as_slice(),
        left,
        right,
    )
}
