//! The columns of a join, where a name may come twice.
ghost use Rattle.std.specs.Prelude.{◌≡◌, IfOk, IsTrue, true};
ghost use Rattle.plan_core.specs.Columns.{names_of, type_of};
ghost use Rattle.plan_expr.specs.Leaves.{Name};
ghost use Rattle.plan_join.specs.Naming.{join_columns, key_columns, with_right, LieIn};
ghost use Rattle.plan_meaning.specs.Functions.{all_differ};

use plan_core::{Arena, Schema, TryClone};
use plan_expr::{AExpr, ExprIR};
use plan_join::{left_rest, right_name, right_rest};
use plan_options::JoinArgs;
use std::alloc::{AllocError, Global};

/// No name comes twice among the columns of a schema, by the law of schemas. There is nothing to compute.
pub fn names_differ(schema: &Schema)
    ensures { all_differ (names_of schema.now) ≡ true }
{
    let _count = schema.len();
}

/// The left columns with the right ones behind them, under the names under which these are put out, of each name the first; and
/// whether they are all of them, since no name comes twice. Refuses for want of memory alone.
fn with_first(
    alloc: Global,
    suffix: &str,
    left: &Schema,
    right: &Schema,
) -> Result<(Schema, bool), AllocError>
    ensures types { IfOk result (λ r. (a : Name) → type_of r.0 a ≡ type_of (with_right suffix.now left.now right.now) a) }
    ensures whole { IfOk result (λ r. IsTrue r.1 → r.0 ≡ with_right suffix.now left.now right.now) }
    ensures differ { IfOk result (λ r. r.1 ≡ all_differ (names_of (with_right suffix.now left.now right.now))) }
{
    let mut columns = left.try_clone(alloc)?;
    let mut differ = true;
    for (name, dtype) in right.iter() {
        let called = right_name(alloc, suffix, left, name)?;
        if columns.get(called.as_str()).is_none() {
            columns.with_column(called, *dtype)?;
        } else {
            differ = false;
        }
    }
    Ok((columns, differ))
}

/// The columns of a join, of each name the first; and whether they are all of them, since no name comes twice. Refuses for want
/// of memory alone.
pub fn first_columns(
    alloc: Global,
    left: &Schema,
    right: &Schema,
    left_on: &[ExprIR],
    right_on: &[ExprIR],
    args: &JoinArgs,
    ex: &Arena<AExpr>,
) -> Result<(Schema, bool), AllocError>
    requires left_keys { LieIn ex.now left_on.now }
    requires right_keys { LieIn ex.now right_on.now }
    ensures types { IfOk result (λ r. (a : Name) → type_of r.0 a ≡ type_of (join_columns args.now (key_columns ex.now left_on.now) (key_columns ex.now right_on.now) left.now right.now) a) }
    ensures whole { IfOk result (λ r. IsTrue r.1 → r.0 ≡ join_columns args.now (key_columns ex.now left_on.now) (key_columns ex.now right_on.now) left.now right.now) }
    ensures differ { IfOk result (λ r. r.1 ≡ all_differ (names_of (join_columns args.now (key_columns ex.now left_on.now) (key_columns ex.now right_on.now) left.now right.now))) }
{
    let left_columns = left_rest(alloc, args, left_on, left, ex)?;
    let right_columns = right_rest(alloc, args, right_on, right, ex)?;
    with_first(alloc, args.suffix(), &left_columns, &right_columns)
}
