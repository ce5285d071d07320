//! The tables of a document: whether they fit its plan, and the rows that a plan gives over them.
ghost use Rattle.std.specs.Prelude.{List, [], ◌∷◌, IfOk, IfSome};
ghost use Rattle.plan_expr.specs.declared.aexpr.AExpr.{AExpr as AExprType};
ghost use Rattle.plan_ir.specs.Parts.{IsPlan};
ghost use Rattle.plan_ir.specs.Plans.{plans_at};
ghost use Rattle.plan_meaning.specs.Contents.{Fits};
ghost use Rattle.plan_meaning.specs.PlanAt.{plan_at};
ghost use Rattle.plan_meaning.specs.Steps.{IsValid};
ghost use Rattle.plan_fit.specs.Sources.{contents_of};
ghost use Rattle.plan_tool.specs.Rows.{AreRows, FitChecked};

use crate::stop::Stop;
use plan_core::{Arena, Node};
use plan_eval::evaluate;
use plan_expr::AExpr;
use plan_fit::fits;
use plan_ir::IR;
use plan_table::{Table, Tables};
use std::alloc::{AllocError, Global};

/// Checks that tables, where there are some, fit the plan at `root`; else the program stops with `Unfit`.
pub fn check_tables(root: Node, lp: &Arena<IR>, tables: &Option<Tables>) -> Result<(), Stop>
    requires { (ex : List AExprType) × IsPlan lp.now ex root }
    ensures fit { (ex : List AExprType) → IsPlan lp.now ex root → FitChecked result tables.now (plans_at lp.now ex (root ∷ [])) }
    ensures frames { (ex : List AExprType) → IsPlan lp.now ex root → IfOk result (λ _. IfSome tables.now (λ ts. Fits (contents_of ts) (plan_at lp.now ex root))) }
{
    match tables {
        Some(tables) => {
            if fits(root, lp, tables) {
                Ok(())
            } else {
                Err(Stop::Unfit)
            }
        }
        None => Ok(()),
    }
}

/// The rows that the plan at `root` gives over the tables; none where there are no tables.
pub fn rows_of(
    alloc: Global,
    root: Node,
    lp: &Arena<IR>,
    ex: &Arena<AExpr>,
    tables: &Option<Tables>,
) -> Result<Option<Table>, AllocError>
    requires stands { IsPlan lp.now ex.now root }
    requires valid { IsValid (plan_at lp.now ex.now root) }
    requires fits { IfSome tables.now (λ ts. Fits (contents_of ts) (plan_at lp.now ex.now root)) }
    ensures { IfOk result (AreRows tables.now (plan_at lp.now ex.now root)) }
{
    match tables {
        Some(tables) => Ok(Some(evaluate(alloc, root, lp, ex, tables)?)),
        None => Ok(None),
    }
}
