//! The condition of a join over pruned sides.
ghost use Rattle.std.specs.Prelude.{◌≡◌, ◌∷◌, [], All, IfOk};
ghost use Rattle.plan_expr.specs.Exprs.{expr_at, named_at};
ghost use Rattle.plan_expr.specs.Operands.{IsExpr};
ghost use Rattle.plan_ir.specs.Parts.{condition_of, list_of};
ghost use Rattle.plan_join.specs.Told.{told_at};
ghost use Rattle.plan_pruned.specs.JoinPruned.{narrowed_told, renamed_condition, renamed_expr, renamed_output};
ghost use Rattle.plan_prune_parts.specs.Left.{condition_nodes, name_now, StandFor};
ghost use Rattle.plan_pruned.specs.Renamed.{IsLonger};

use crate::names::JoinNames;
use plan_core::{Arena, Node};
use plan_expr::{AExpr, ExprIR, OutputName, aexpr_to_leaf_names};
use plan_join::{JoinOptions, JoinTypeOptionsIR};
use plan_pruned::copy_renamed;
use std::alloc::{AllocError, Global};

/// The output name of an expression, where columns are called otherwise now.
fn output_now(alloc: Global, name: OutputName, names: &JoinNames) -> Result<OutputName, AllocError>
    ensures { IfOk result (λ now. now ≡ renamed_output (name_now names.now) name) }
{
    match name {
        OutputName::ColumnLhs(name) => {
            Ok(OutputName::ColumnLhs(names.now(alloc, name.as_str())?))
        }
        other => Ok(other),
    }
}

/// An expression under the names that columns have now: itself where each is called as it was, else a copy, of new entries. Refuses for
/// want of memory alone.
fn node_now(
    alloc: Global,
    node: Node,
    names: &JoinNames,
    ex: &mut Arena<AExpr>,
) -> Result<Node, AllocError>
    requires { IsExpr ex.old node }
    ensures expr { IfOk result (λ now. expr_at ex.new now ≡ renamed_expr (name_now names.now) (expr_at ex.old node)) }
    ensures stands { IfOk result (λ now. IsExpr ex.new now) }
    ensures place { IfOk result (λ now. StandFor ex.old ex.new (now ∷ []) (node ∷ [])) }
    ensures longer { IsLonger ex.old ex.new }
{
    let from = aexpr_to_leaf_names(alloc, node, ex)?;
    let to = names.all_now(alloc, from.as_slice())?;
    if from != to {
        return copy_renamed(alloc, node, ex, from.as_slice(), to.as_slice());
    }
    Ok(node)
}

/// A condition under the names that columns have now: itself where each is called as it was, else a copy, of new entries. Refuses for
/// want of memory alone.
fn condition_now(
    alloc: Global,
    predicate: ExprIR,
    names: &JoinNames,
    ex: &mut Arena<AExpr>,
) -> Result<ExprIR, AllocError>
    requires { IsExpr ex.old predicate.node }
    ensures condition { IfOk result (λ now. named_at ex.new now ≡ renamed_condition (name_now names.now) (named_at ex.old predicate)) }
    ensures stands { IfOk result (λ now. IsExpr ex.new now.node) }
    ensures place { IfOk result (λ now. StandFor ex.old ex.new (now.node ∷ []) (predicate.node ∷ [])) }
    ensures longer { IsLonger ex.old ex.new }
{
    let node = node_now(alloc, predicate.node, names, ex)?;
    let output_name = output_now(alloc, predicate.output_name, names)?;
    Ok(ExprIR { node, output_name })
}

/// What a join is told, its condition under the names that columns have now. Refuses for want of memory alone.
pub fn options_now(
    alloc: Global,
    options: JoinOptions,
    names: &JoinNames,
    ex: &mut Arena<AExpr>,
) -> Result<JoinOptions, AllocError>
    requires { All (λ e. IsExpr ex.old e.node) (list_of (condition_of options)) }
    ensures told { IfOk result (λ now. told_at ex.new now ≡ narrowed_told (name_now names.now) options.args (told_at ex.old options)) }
    ensures stands { IfOk result (λ now. All (λ e. IsExpr ex.new e.node) (list_of (condition_of now))) }
    ensures place { IfOk result (λ now. StandFor ex.old ex.new (condition_nodes now) (condition_nodes options)) }
    ensures longer { IsLonger ex.old ex.new }
{
    let JoinOptions {
        allow_parallel,
        force_parallel,
        args,
        options,
    } = options;
    let options = match options {
        Some(JoinTypeOptionsIR::Cross { predicate }) => Some(JoinTypeOptionsIR::Cross {
            predicate: condition_now(alloc, predicate, names, ex)?,
        }),
        other => other,
    };
    Ok(JoinOptions {
        allow_parallel,
        force_parallel,
        args,
        options,
    })
}
