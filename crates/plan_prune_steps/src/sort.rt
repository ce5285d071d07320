//! A sort stays as it is.
//! Asked something, it asks its input that, and the columns of its keys, each last unless it is asked already.
//! Asked nothing, it asks nothing.
ghost use Rattle.std.specs.Prelude.{◌≡◌, All, IfOk, IsTrue, List};
ghost use Rattle.plan_expr.specs.Operands.{IsExpr};
ghost use Rattle.plan_ir.specs.declared.ir.IR.{IR};
ghost use Rattle.plan_ir.specs.Parts.{is_sort, roots_of};
ghost use Rattle.plan_expr.specs.Exprs.{all_named_at};
ghost use Rattle.plan_frame.specs.ExprLists.{all_leaves};
ghost use Rattle.plan_pruned.specs.Pruned.{asked_with};
ghost use Rattle.plan_prune_parts.specs.Places.{StandExprs};
ghost use Rattle.plan_prune_steps.specs.Steps.{step_of};

use crate::over::over;
use crate::reads::with_added;
use plan_core::{Arena, Names};
use plan_expr::{AExpr, ExprIR};
use plan_ir::IR;
use plan_prune_parts::Step;
use plan_prune_parts::exprs::add_all_names;
use std::alloc::AllocError;

/// What a sort asks its input: the asked names, and then the other names that the keys read; no names stand for every
/// column, and then it asks none.
fn asks(asked: Names, keys: &[ExprIR], ex: &Arena<AExpr>) -> Result<Names, AllocError>
    requires { All (λ e. IsExpr ex.now e.node) keys.now }
    ensures { IfOk result (λ names. names ≡ asked_with asked (all_leaves (all_named_at ex.now keys.now))) }
{
    let mut names = asked;
    if names.len() > 0 {
        let added = add_all_names(&mut names, keys, ex);
        return with_added(names, added);
    }
    Ok(names)
}

/// The step of a sort.
pub fn prepare(sort: IR, asked: Names, ex: &Arena<AExpr>) -> Result<Step, AllocError>
    requires kind { IsTrue (is_sort sort) }
    requires exprs { StandExprs ex.now (roots_of sort) }
    ensures { IfOk result (λ step. (lp : List IR) → step ≡ step_of lp ex.now asked sort) }
{
    match sort {
        IR::Sort {
            input,
            by_column,
            slice,
            sort_options,
        } => {
            let asked = asks(asked, by_column.as_slice(), ex);
            over(
                input,
                asked,
                IR::Sort {
                    input,
                    by_column,
                    slice,
                    sort_options,
                },
            )
        }
        _ => unreachable!(),
    }
}
