//! A union stays as it is, and asks each of its inputs what is asked of it.
//! Asked something, each of more than one input gets a projection to the asked names on top, so that all have the same columns.
ghost use Rattle.std.specs.Prelude.{◌≡◌, IfOk, None};
ghost use Rattle.plan_ir.specs.declared.ir.IR.TheVariants.{Union};
ghost use Rattle.plan_pruned.specs.Pruned.{names_alike};
ghost use Rattle.plan_prune_parts.specs.declared.step.Step.TheVariants.{Each};
ghost use Rattle.plan_prune_steps.specs.Steps.{covering};

use crate::over::each;
use plan_core::{Items, Names, Node, TryClone};
use plan_ir::IR;
use plan_options::UnionOptions;
use plan_prune_parts::Step;
use plan_pruned::copied_names;
use std::alloc::{AllocError, Global};

/// What a union asks its inputs: each of them the asked names.
fn asks(alloc: Global, inputs: &[Node], asked: &Names) -> Result<Items<Names>, AllocError>
    ensures { IfOk result (λ lists. lists ≡ names_alike asked.now inputs.now) }
{
    let mut lists = Items::new(alloc);
    for _ in inputs {
        lists.push(copied_names(alloc, asked)?)?;
    }
    Ok(lists)
}

/// The names to which each input gets a projection: the asked ones where there is more than one input.
fn covered(inputs: &[Node], asked: Names) -> Option<Names>
    ensures { result ≡ covering inputs.now asked }
{
    if inputs.len() > 1 { Some(asked) } else { None }
}

/// The step of a union.
pub fn prepare(
    alloc: Global,
    inputs: Items<Node>,
    options: UnionOptions,
    asked: Names,
) -> Result<Step, AllocError>
    ensures { IfOk result (λ step. step ≡ Each inputs (names_alike asked inputs) (covering inputs asked) None (Union inputs options)) }
{
    let copy = inputs.try_clone(alloc);
    let lists = asks(alloc, inputs.as_slice(), &asked);
    let covered = covered(inputs.as_slice(), asked);
    each(copy, lists, covered, IR::Union { inputs, options })
}
