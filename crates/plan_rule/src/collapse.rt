//! The rule that collapses projections and caches.
//!
//! ```text
//! Select [a, b]               SimpleProjection [a, b]
//!   x                   =>      x
//!
//! SimpleProjection [a]        SimpleProjection [a]
//!   SimpleProjection [a, b]     x
//!     x                 =>
//!
//! SimpleProjection [a, b]     x
//!   x, of columns a, b  =>
//!
//! Cache 1, 2 hits             Cache 2, 5 hits
//!   Cache 2, 3 hits             x
//!     x                 =>
//! ```
ghost use Rattle.std.specs.Prelude.{◌≡◌, ◌∷◌, [], All, IfOk, List, false, length, true};
ghost use Rattle.plan_core.specs.Columns.{same_columns};
ghost use Rattle.plan_tree.specs.Stands.{Trees, StandsOnce};
ghost use Rattle.plan_expr.specs.declared.aexpr.AExpr.{AExpr as AExprType};
ghost use Rattle.plan_expr.specs.Exprs.{all_named_at, expr_op, named_at};
ghost use Rattle.plan_expr.specs.Operands.{IsExpr};
ghost use Rattle.plan_ir.specs.declared.ir.IR.{IR as IRType};
ghost use Rattle.plan_ir.specs.Parts.{IsPlan, StandsPlan, exprs_of, plan_shape};
ghost use Rattle.plan_ir.specs.Plans.{op_at};
ghost use Rattle.plan_meaning.specs.PlanAt.{plan_at};
ghost use Rattle.plan_meaning.specs.Steps.{IsValid};
ghost use Rattle.plan_meaning.specs.Typing.{schema};
ghost use Rattle.plan_meaning.specs.Work.{is_column_op};
ghost use Rattle.plan_pass_laws.specs.declared.kind.RuleKind.TheVariants as kinds;
ghost use Rattle.plan_pass_laws.specs.Answers.{are_own_columns, is_alias, is_own_column, selects_columns};
ghost use Rattle.plan_pass_laws.specs.Patterns.{shows};
ghost use Rattle.plan_rule.specs.Calls.{plan_of, Answers};
ghost use Rattle.plan_rule.specs.Joined.{as_projection_node, caches_joined, projected_input, projection_onto};

use crate::rule::OptimizationRule;
use plan_core::{Arena, Node, PolarsResult, Schema};
use plan_expr::{AExpr, ExprIR, OutputName};
use plan_ir::IR;
use plan_pass_laws::RuleKind;
use plan_schema::stored_schema;
use std::alloc::{AllocError, Global};

/// Makes projections of selections of columns; where it isn't eager, it also puts a projection onto the input of one below it, leaves
/// out a projection to the columns of its input, and makes one of a cache on a cache.
#[derive(Drop)]
pub struct SimpleProjectionAndCollapse {
    eager: bool,
}

/// Whether an expression is a column.
fn is_column(expr: &AExpr) -> bool
    ensures { result ≡ is_column_op (expr_op expr.now) }
{
    matches!(expr, AExpr::Column(_))
}

/// Whether an output name is an alias.
fn is_alias(name: &OutputName) -> bool
    ensures { result ≡ is_alias name.now }
{
    matches!(name, OutputName::Alias(_))
}

/// Whether an expression is a column under its own name.
fn is_own_column(expr: &ExprIR, ex: &Arena<AExpr>) -> bool
    requires { IsExpr ex.now expr.now.node }
    ensures { result ≡ is_own_column (named_at ex.now expr.now) }
{
    is_column(ex.get(expr.node())) && !is_alias(expr.output_name_inner())
}

/// Whether each expression is a column under its own name.
fn are_own_columns(exprs: &[ExprIR], ex: &Arena<AExpr>) -> bool
    requires { All (λ e. IsExpr ex.now e.node) exprs.now }
    ensures { result ≡ are_own_columns (all_named_at ex.now exprs.now) }
{
    for expr in exprs {
        if !is_own_column(expr, ex) {
            return false;
        }
    }
    true
}

/// Whether a node is a selection of columns under their own names.
fn selects_columns(entry: &IR, ex: &Arena<AExpr>) -> bool
    requires { All (λ e. IsExpr ex.now e.node) (exprs_of entry.now) }
    ensures { result ≡ selects_columns (op_at ex.now entry.now) }
{
    match entry {
        IR::Select { expr, .. } => are_own_columns(expr.as_slice(), ex),
        _ => false,
    }
}

/// A selection as a projection to its columns.
fn as_projection(entry: IR) -> IR
    ensures { result ≡ as_projection_node entry }
{
    match entry {
        IR::Select { input, schema, .. } => IR::SimpleProjection {
            input,
            columns: schema,
        },
        other => other,
    }
}

/// The input of a projection; None for every other node.
fn projected_input(entry: &IR) -> Option<Node>
    ensures { result ≡ projected_input entry.now }
{
    match entry {
        IR::SimpleProjection { input, .. } => Some(*input),
        _ => None,
    }
}

/// A projection over another input.
fn onto(entry: IR, below: Node) -> IR
    ensures { result ≡ projection_onto entry below }
{
    match entry {
        IR::SimpleProjection { columns, .. } => IR::SimpleProjection {
            input: below,
            columns,
        },
        other => other,
    }
}

/// Whether the plan at a number has these columns. Refuses for want of memory alone.
fn has_columns(
    alloc: Global,
    columns: &Schema,
    node: Node,
    lp: &Arena<IR>,
) -> Result<bool, AllocError>
    requires { (t : Trees IRType) × StandsOnce plan_shape lp.now (node ∷ []) t }
    ensures { IfOk result (λ has. (ex : List AExprType) → IsPlan lp.now ex node → IsValid (plan_at lp.now ex node) → has ≡ same_columns columns.now (schema (plan_at lp.now ex node))) }
{
    let stored = stored_schema(alloc, node, lp)?;
    Ok(columns == stored.columns())
}

/// A cache that was asked for so often on the one at `entry`, as one; None where that is no cache.
fn joined_cache(hits: u32, entry: &IR) -> Option<IR>
    ensures { result ≡ caches_joined hits entry.now }
{
    match entry {
        IR::Cache {
            input,
            id,
            cache_hits,
        } => Some(IR::Cache {
            input: *input,
            id: *id,
            cache_hits: hits.saturating_add(*cache_hits),
        }),
        _ => None,
    }
}

/// What comes in the place of a projection or a cache that its input makes needless; None where it stays, and for every other node.
/// Refuses for want of memory alone.
fn joined(alloc: Global, node: Node, lp: &mut Arena<IR>) -> Result<Option<IR>, AllocError>
    requires { (t : Trees IRType) × StandsOnce plan_shape lp.old (node ∷ []) t }
    ensures answers { IfOk result (λ o. (ex : List AExprType) (t : Trees IRType) (e : Trees AExprType) → StandsPlan lp.old ex node t e → IsValid (plan_at lp.old ex node) → shows (kinds.Collapse true) (plan_of ex t) ≡ false → Answers (kinds.Collapse false) true lp.old lp.new ex ex node t e o) }
    ensures size { length lp.new ≡ length lp.old }
{
    match lp.get(node) {
        IR::SimpleProjection { input, columns } => {
            let input = *input;
            match projected_input(lp.get(input)) {
                Some(below) => Ok(Some(onto(lp.take(node), below))),
                None => {
                    if has_columns(alloc, columns, input, lp)? {
                        Ok(Some(lp.take(input)))
                    } else {
                        Ok(None)
                    }
                }
            }
        }
        IR::Cache {
            input,
            cache_hits,
            ..
        } => Ok(joined_cache(*cache_hits, lp.get(*input))),
        _ => Ok(None),
    }
}

impl SimpleProjectionAndCollapse {
    /// The rule; one that is eager makes projections of selections of columns, and nothing else.
    pub fn new(eager: bool) -> Self
        ensures { result.eager ≡ eager }
    {
        SimpleProjectionAndCollapse { eager }
    }
}

impl OptimizationRule for SimpleProjectionAndCollapse {
    ghost use Rattle.std.specs.Prelude.{true};
    ghost use Rattle.plan_pass_laws.specs.declared.kind.RuleKind.TheVariants.{Collapse as collapse};

    ghost kind_of = { λ rule. collapse rule.eager };

    ghost is_own = { λ _. true };

    /// The projection, the input or the cache that comes in the place of the node.
    fn optimize_plan(
        &mut self,
        alloc: Global,
        lp: &mut Arena<IR>,
        ex: &mut Arena<AExpr>,
        node: Node,
    ) -> PolarsResult<Option<IR>> {
        if selects_columns(lp.get(node), ex) {
            return Ok(Some(as_projection(lp.take(node))));
        }
        if self.eager {
            return Ok(None);
        }
        Ok(joined(alloc, node, lp)?)
    }

    fn kind(&self) -> RuleKind {
        RuleKind::Collapse { eager: self.eager }
    }
}
