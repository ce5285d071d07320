//! The rule that makes one union of unions.
//!
//! ```text
//! Union                 Union, flattened
//!   a                     a
//!   Union         =>      b
//!     b                   c
//!     c
//! ```
ghost use Rattle.std.specs.Prelude.{◌≡◌, ◌++◌, All, IfOk, OnOk, length, ◌<◌};
ghost use Rattle.plan_tree.specs.Stands.{Trees, StandsOnce};
ghost use Rattle.plan_expr.specs.declared.aexpr.AExpr.{AExpr as AExprType};
ghost use Rattle.plan_ir.specs.declared.ir.IR.{IR as IRType};
ghost use Rattle.plan_ir.specs.Parts.{plan_shape};
ghost use Rattle.plan_rule.specs.TakenUp.{flattened_options, has_unflattened_node, is_unflattened_node, numbers_for, numbers_taken_up};

use crate::rule::OptimizationRule;
use plan_core::{Arena, Items, Node, PolarsResult};
use plan_expr::AExpr;
use plan_ir::IR;
use plan_options::UnionOptions;
use plan_pass_laws::RuleKind;
use plan_tree::Entry;
use std::alloc::{AllocError, Global};

/// Where an input of a union is a union that isn't marked as flattened, puts the inputs of all its input unions in their place, and
/// marks it.
#[derive(Drop)]
pub struct FlattenUnionRule;

/// Whether a node is a union that isn't marked as flattened.
fn is_unflattened(entry: &IR) -> bool
    ensures { result ≡ is_unflattened_node entry.now }
{
    match entry {
        IR::Union { options, .. } => !options.flattened_by_opt,
        _ => false,
    }
}

/// Whether one of some nodes is a union that isn't marked as flattened.
fn has_unflattened(inputs: &[Node], lp: &Arena<IR>) -> bool
    requires { All (λ n. n.0 < length lp.now) inputs.now }
    ensures { result ≡ has_unflattened_node lp.now inputs.now }
{
    for input in inputs {
        if is_unflattened(lp.get(*input)) {
            return true;
        }
    }
    false
}

/// Appends the inputs of a union, or the number of another node. Refuses for want of memory alone.
fn take_up(input: Node, entry: &IR, taken: &mut Items<Node>) -> Result<(), AllocError>
    ensures { OnOk result (taken.new ≡ taken.old ++ numbers_for input entry.now) }
{
    match entry {
        IR::Union { .. } => entry.copy_inputs(taken),
        _ => taken.push(input),
    }
}

/// Some numbers, with those of the inputs of unions in the place of these. Refuses for want of memory alone.
fn taken_up(alloc: Global, inputs: &[Node], lp: &Arena<IR>) -> Result<Items<Node>, AllocError>
    requires { All (λ n. n.0 < length lp.now) inputs.now }
    ensures { IfOk result (λ taken. taken ≡ numbers_taken_up lp.now inputs.now) }
{
    let mut taken = Items::new(alloc);
    for input in inputs {
        take_up(*input, lp.get(*input), &mut taken)?;
    }
    Ok(taken)
}

/// The options of a union that took up the inputs of others.
fn flattened(options: &UnionOptions) -> UnionOptions
    ensures { result ≡ flattened_options options.now }
{
    UnionOptions {
        flattened_by_opt: true,
        ..*options
    }
}

impl OptimizationRule for FlattenUnionRule {
    ghost use Rattle.std.specs.Prelude.{true};
    ghost use Rattle.plan_pass_laws.specs.declared.kind.RuleKind.TheVariants.{Flatten as flatten};

    ghost kind_of = { λ _. flatten };

    ghost is_own = { λ _. true };

    /// The union over the inputs that are taken up.
    fn optimize_plan(
        &mut self,
        alloc: Global,
        lp: &mut Arena<IR>,
        ex: &mut Arena<AExpr>,
        node: Node,
    ) -> PolarsResult<Option<IR>> {
        match lp.get(node) {
            IR::Union { inputs, options } => {
                let inputs = inputs.as_slice();
                if !has_unflattened(inputs, lp) {
                    return Ok(None);
                }
                let taken = taken_up(alloc, inputs, lp)?;
                Ok(Some(IR::Union {
                    inputs: taken,
                    options: flattened(options),
                }))
            }
            _ => Ok(None),
        }
    }

    fn kind(&self) -> RuleKind {
        RuleKind::Flatten
    }
}
