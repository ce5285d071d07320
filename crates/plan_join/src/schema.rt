//! The columns of a join.
ghost use Rattle.std.specs.Prelude.{◌≡◌, ◌++◌, List, ℕ, IfOk, IfErr, IfSome, IfNone, OnOk};
ghost use Rattle.plan_core.specs.Columns.{HasDistinctNames, names_of};
ghost use Rattle.plan_core.specs.Names.{has};
ghost use Rattle.plan_options.specs.Join.{suffix_of};
ghost use Rattle.plan_expr.specs.Leaves.{Name};
ghost use Rattle.plan_join.specs.Naming.{but_for, drops_left, has_right, join_columns, key_columns, left_rest as rest_of_left, right_rest as rest_of_right, right_name as named_right, with_right as is_with_right, LieIn, Refuses};

use crate::options::JoinOptions;
use plan_core::{Arena, At, Names, PlSmallStr, PolarsError, PolarsResult, Schema, TryClone};
use plan_expr::{AExpr, ExprIR};
use plan_options::{JoinArgs, JoinType};
use std::alloc::{AllocError, Global};

/// Whether the keys of the left side are those that a join drops where it puts each pair of keys out as one.
pub fn is_left_dropped(how: JoinType) -> bool
    ensures { result ≡ drops_left how }
{
    matches!(how, JoinType::Right)
}

/// Whether a join puts out columns of its right side.
pub fn gives_right(how: JoinType) -> bool
    ensures { result ≡ has_right how }
{
    !matches!(how, JoinType::Semi | JoinType::Anti)
}

/// The names of the columns among keys, each once.
fn names_of_keys(alloc: Global, keys: &[ExprIR], ex: &Arena<AExpr>) -> Result<Names, AllocError>
    requires { LieIn ex.now keys.now }
    ensures { IfOk result (λ names. (a : Name) → has names a ≡ has (key_columns ex.now keys.now) a) }
{
    let mut names = Names::new(alloc);
    for key in keys {
        if let Some(name) = ex.get(key.node).column_name() {
            names.add(name)?;
        }
    }
    Ok(names)
}

/// The columns whose names are none of these, in order.
fn without_names(alloc: Global, names: &Names, columns: &Schema) -> Result<Schema, AllocError>
    ensures { IfOk result (λ rest. rest ≡ but_for names.now columns.now) }
{
    let mut rest = Schema::new(alloc);
    for (name, dtype) in columns.iter() {
        if !names.contains(name) {
            rest.with_column(PlSmallStr::new(alloc, name)?, *dtype)?;
        }
    }
    Ok(rest)
}

/// The left columns that a join puts out, in order. Refuses for want of memory alone.
pub fn left_rest(
    alloc: Global,
    args: &JoinArgs,
    keys: &[ExprIR],
    left: &Schema,
    ex: &Arena<AExpr>,
) -> Result<Schema, AllocError>
    requires { LieIn ex.now keys.now }
    ensures { IfOk result (λ rest. rest ≡ rest_of_left args.now (key_columns ex.now keys.now) left.now) }
{
    if args.should_coalesce() && is_left_dropped(args.how) {
        return without_names(alloc, &names_of_keys(alloc, keys, ex)?, left);
    }
    left.try_clone(alloc)
}

/// The right columns that a join puts out, in order, under the names that they have there. Refuses for want of memory alone.
pub fn right_rest(
    alloc: Global,
    args: &JoinArgs,
    keys: &[ExprIR],
    right: &Schema,
    ex: &Arena<AExpr>,
) -> Result<Schema, AllocError>
    requires { LieIn ex.now keys.now }
    ensures { IfOk result (λ rest. rest ≡ rest_of_right args.now (key_columns ex.now keys.now) right.now) }
{
    if !gives_right(args.how) {
        return Ok(Schema::new(alloc));
    }
    if args.should_coalesce() && !is_left_dropped(args.how) {
        return without_names(alloc, &names_of_keys(alloc, keys, ex)?, right);
    }
    right.try_clone(alloc)
}

/// The name under which a right column is put out: its own, with the suffix where one of the left columns that are put out
/// has the same. Refuses for want of memory alone.
pub fn right_name(
    alloc: Global,
    suffix: &str,
    left: &Schema,
    name: &str,
) -> Result<PlSmallStr, AllocError>
    ensures { IfOk result (λ r. r ≡ named_right suffix.now (names_of left.now) name.now) }
{
    if !left.get(name).is_some() {
        return PlSmallStr::new(alloc, name);
    }
    let mut text = String::from_str(alloc, name)?;
    text.push_str(suffix)?;
    PlSmallStr::new(alloc, text.as_str())
}

/// The left columns with the right ones behind them, under the names under which these are put out; None exactly where a
/// name comes twice.
fn with_right(
    alloc: Global,
    suffix: &str,
    left: &Schema,
    right: &Schema,
) -> Result<Option<Schema>, AllocError>
    ensures columns { IfOk result (λ made. IfSome made (λ s. s ≡ is_with_right suffix.now left.now right.now)) }
    ensures distinct { IfOk result (λ made. IfSome made (λ s. HasDistinctNames s)) }
    ensures twice { IfOk result (λ made. IfNone made (HasDistinctNames (is_with_right suffix.now left.now right.now) → ⊥)) }
{
    let mut made = left.try_clone(alloc)?;
    for (name, dtype) in right.iter() {
        let name = right_name(alloc, suffix, left, name)?;
        if made.with_column(name, *dtype)?.is_some() {
            return Ok(None);
        }
    }
    Ok(Some(made))
}

/// The columns that a join puts out: those of its left side that remain, and then those of its right side, each with the
/// suffix behind its name where a left column that remains has that name. What remains are all columns, but, where each pair
/// of keys is put out as one, for the key columns of the right side, or in a right join of the left; a semi or anti join puts
/// out no right columns. It refuses with `Duplicate` at place 0, of no node, memory aside, exactly where a name comes twice.
pub fn join_schema(
    alloc: Global,
    left: &Schema,
    right: &Schema,
    left_on: &[ExprIR],
    right_on: &[ExprIR],
    options: &JoinOptions,
    ex: &Arena<AExpr>,
) -> PolarsResult<Schema>
    requires left_keys { LieIn ex.now left_on.now }
    requires right_keys { LieIn ex.now right_on.now }
    ensures columns { IfOk result (λ schema. schema ≡ join_columns options.now.args (key_columns ex.now left_on.now) (key_columns ex.now right_on.now) left.now right.now) }
    ensures distinct { OnOk result (HasDistinctNames (join_columns options.now.args (key_columns ex.now left_on.now) (key_columns ex.now right_on.now) left.now right.now)) }
    ensures refused { IfErr result (Refuses (join_columns options.now.args (key_columns ex.now left_on.now) (key_columns ex.now right_on.now) left.now right.now)) }
{
    let args = &options.args;
    let left = left_rest(alloc, args, left_on, left, ex)?;
    let right = right_rest(alloc, args, right_on, right, ex)?;
    match with_right(alloc, args.suffix(), &left, &right)? {
        Some(columns) => Ok(columns),
        None => Err(PolarsError::Duplicate(At {
            node: None,
            place: 0,
        })),
    }
}
