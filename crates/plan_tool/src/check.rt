//! The checks on the plan of a document: its numbers, its levels, and then its nodes.
ghost use Rattle.std.specs.Prelude.{IfOk};
ghost use Rattle.plan_ir.specs.Parts.{IsPlan};
ghost use Rattle.plan_meaning.specs.PlanAt.{plan_at};
ghost use Rattle.plan_meaning.specs.Steps.{IsValid};
ghost use Rattle.plan_tool.specs.Checked.{Checks, LevelsChecked};

use crate::stop::Stop;
use plan_check::{check_nodes, check_tree};
use plan_copy::expr_roots;
use plan_core::{Arena, Node, Schema};
use plan_expr::AExpr;
use plan_ir::IR;
use plan_tree::is_deeper;
use std::alloc::Global;

/// A plan has at most so many levels.
const PLAN_LEVELS: usize = 256;

/// An expression has at most so many levels.
const EXPR_LEVELS: usize = 128;

/// Checks the levels of the plan at `root`, and those of its expressions.
fn check_levels(alloc: Global, root: Node, lp: &Arena<IR>, ex: &Arena<AExpr>) -> Result<(), Stop>
    requires { IsPlan lp.now ex.now root }
    ensures { LevelsChecked result lp.now ex.now root }
{
    if is_deeper(alloc, lp, &[root], PLAN_LEVELS)? {
        return Err(Stop::Limit);
    }
    let roots = expr_roots(alloc, root, lp)?;
    if is_deeper(alloc, ex, roots.as_slice(), EXPR_LEVELS)? {
        return Err(Stop::Limit);
    }
    Ok(())
}

/// The columns of the plan at `root`, after the checks of the numbers that it reaches, of its levels, and of its nodes.
/// The first check that fails says how the program stops.
pub fn check(alloc: Global, root: Node, lp: &Arena<IR>, ex: &Arena<AExpr>) -> Result<Schema, Stop>
    ensures checks { Checks result lp.now ex.now root }
    ensures stands { IfOk result (λ _. IsPlan lp.now ex.now root) }
    ensures valid { IfOk result (λ _. IsValid (plan_at lp.now ex.now root)) }
{
    check_tree(alloc, root, lp, ex)?;
    check_levels(alloc, root, lp, ex)?;
    Ok(check_nodes(alloc, root, lp, ex)?)
}
