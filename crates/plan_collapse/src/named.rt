//! Expressions under the names that they give themselves, and the inequalities that a join is told.
ghost use Rattle.std.specs.Prelude.{◌≡◌, ◌++◌, [], ◌∷◌, All, IfOk, List, map};
ghost use Rattle.plan_expr.specs.declared.aexpr.AExpr.{AExpr as AExprType};
ghost use Rattle.plan_expr.specs.Exprs.{all_named_at, expr_at, named_at};
ghost use Rattle.plan_expr.specs.Operands.{IsExpr};
ghost use Rattle.plan_ir.specs.Parts.{list_of};
ghost use Rattle.plan_prune_parts.specs.Places.{StandExprs};
ghost use Rattle.plan_collapse_laws.specs.CrossKeys.{Crossed, inequality_of as inequality_by, KeyPair};
ghost use Rattle.plan_collapse_laws.specs.TakenKeys.{operators_of as operators_by, self_named as named_by};
ghost use Rattle.plan_collapse.specs.KeysAt.{NamesItself, pair_at};

use crate::keys::KeyNodes;
use plan_core::{Arena, Items, Node, PolarsError};
use plan_expr::{AExpr, ExprIR, Operator};
use plan_options::{IEJoinOptions, InequalityOperator};
use std::alloc::{AllocError, Global};

/// The expression at a number, under the name that it gives itself. Refuses for want of memory alone.
pub fn self_named(alloc: Global, node: Node, ex: &Arena<AExpr>) -> Result<ExprIR, AllocError>
    requires stands { IsExpr ex.now node }
    requires named { NamesItself (expr_at ex.now node) }
    ensures named { IfOk result (λ e. named_at ex.now e ≡ named_by (expr_at ex.now node)) }
    ensures node { IfOk result (λ e. e.node ≡ node) }
{
    match ExprIR::from_node(alloc, node, ex) {
        Ok(expr) => Ok(expr),
        Err(PolarsError::OutOfMemory) => Err(AllocError),
        Err(_) => unreachable!(),
    }
}

/// The expressions at numbers, each under the name that it gives itself. Refuses for want of memory alone.
pub fn all_self_named(
    alloc: Global,
    nodes: &[Node],
    ex: &Arena<AExpr>,
) -> Result<Items<ExprIR>, AllocError>
    requires stands { StandExprs ex.now nodes.now }
    requires named { All (λ n. NamesItself (expr_at ex.now n)) nodes.now }
    ensures named { IfOk result (λ es. all_named_at ex.now es ≡ map (λ n. named_by (expr_at ex.now n)) nodes.now) }
    ensures nodes { IfOk result (λ es. map (λ e. e.node) es ≡ nodes.now) }
{
    let mut exprs = Items::new(alloc);
    for node in nodes {
        exprs.push(self_named(alloc, *node, ex)?)?;
    }
    Ok(exprs)
}

/// The expression at a number, if there is one, under the name that it gives itself. Refuses for want of memory alone.
pub fn named_if(
    alloc: Global,
    node: Option<Node>,
    ex: &Arena<AExpr>,
) -> Result<Option<ExprIR>, AllocError>
    requires stands { StandExprs ex.now (list_of node) }
    requires named { All (λ n. NamesItself (expr_at ex.now n)) (list_of node) }
    ensures named { IfOk result (λ e. all_named_at ex.now (list_of e) ≡ map (λ n. named_by (expr_at ex.now n)) (list_of node)) }
    ensures node { IfOk result (λ e. map (λ x. x.node) (list_of e) ≡ list_of node) }
{
    match node {
        Some(node) => Ok(Some(self_named(alloc, node, ex)?)),
        None => Ok(None),
    }
}

/// The inequality that an operator is, if it is one.
fn inequality_of(op: Operator) -> Option<InequalityOperator>
    ensures { result ≡ inequality_by op }
{
    match op {
        Operator::Lt => Some(InequalityOperator::Lt),
        Operator::LtEq => Some(InequalityOperator::LtEq),
        Operator::Gt => Some(InequalityOperator::Gt),
        Operator::GtEq => Some(InequalityOperator::GtEq),
        _ => None,
    }
}

/// The inequalities that are told of keys, with those of one pair more.
fn with_one(told: Option<IEJoinOptions>, op: Operator) -> Option<IEJoinOptions>
    ensures { (ks : List KeyPair) (k : KeyPair) → k.op ≡ op → told ≡ operators_by ks → result ≡ operators_by (ks ++ k ∷ []) }
{
    let Some(inequality) = inequality_of(op) else {
        return told;
    };
    match told {
        None => Some(IEJoinOptions {
            operator1: inequality,
            operator2: None,
        }),
        Some(told) => Some(IEJoinOptions {
            operator1: told.operator1,
            operator2: Some(told.operator2.unwrap_or(inequality)),
        }),
    }
}

/// The inequalities by which keys are compared, the first two, as a join is told them; None where there is none.
pub fn operators_of(keys: &[KeyNodes]) -> Option<IEJoinOptions>
    ensures { (ex : List AExprType) (j : Crossed) → result ≡ operators_by (map (pair_at ex j) keys.now) }
{
    let mut told = None;
    for key in keys {
        told = with_one(told, key.op);
    }
    told
}
