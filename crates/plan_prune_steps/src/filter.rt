//! A filter stays as it is.
//! Asked something, it asks its input that, and the columns of its predicate, each last unless it is asked already.
//! Asked nothing, it asks nothing.
ghost use Rattle.std.specs.Prelude.{◌≡◌, IfOk};
ghost use Rattle.plan_ir.specs.declared.ir.IR.TheVariants.{Filter};
ghost use Rattle.plan_expr.specs.Operands.{IsExpr};
ghost use Rattle.plan_expr.specs.Exprs.{expr_at};
ghost use Rattle.plan_expr.specs.Leaves.{leaves};
ghost use Rattle.plan_pruned.specs.Pruned.{asked_with};
ghost use Rattle.plan_prune_parts.specs.declared.step.Step.TheVariants.{Over};

use crate::over::over;
use crate::reads::with_added;
use plan_core::{Arena, Names, Node};
use plan_expr::{AExpr, ExprIR};
use plan_ir::IR;
use plan_prune_parts::Step;
use plan_prune_parts::exprs::add_names;
use std::alloc::AllocError;

/// What a filter asks its input: the asked names, and then the other names that the predicate reads; no names stand for
/// every column, and then it asks none.
fn asks(asked: Names, predicate: &ExprIR, ex: &Arena<AExpr>) -> Result<Names, AllocError>
    requires { IsExpr ex.now predicate.now.node }
    ensures { IfOk result (λ names. names ≡ asked_with asked (leaves (expr_at ex.now predicate.now.node))) }
{
    let mut names = asked;
    if names.len() > 0 {
        let added = add_names(&mut names, predicate.node, ex);
        return with_added(names, added);
    }
    Ok(names)
}

/// The step of a filter.
pub fn prepare(
    input: Node,
    predicate: ExprIR,
    asked: Names,
    ex: &Arena<AExpr>,
) -> Result<Step, AllocError>
    requires { IsExpr ex.now predicate.node }
    ensures { IfOk result (λ step. step ≡ Over input (asked_with asked (leaves (expr_at ex.now predicate.node))) (Filter input predicate)) }
{
    over(
        input,
        asks(asked, &predicate, ex),
        IR::Filter { input, predicate },
    )
}
