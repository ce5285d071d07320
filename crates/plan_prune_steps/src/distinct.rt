//! Distinct rows stay as they are.
//! Asked something, they ask their input that, and the names by which rows are told apart, each last unless it is asked
//! already: without names all of the input's. Asked nothing, they ask nothing.
ghost use Rattle.std.specs.Prelude.{◌≡◌, List, [], ◌∷◌, IfOk, OnOk};
ghost use Rattle.plan_core.specs.Columns.{names_of};
ghost use Rattle.plan_core.specs.Names.{with_names};
ghost use Rattle.plan_tree.specs.Stands.{Trees, StandsOnce};
ghost use Rattle.plan_expr.specs.declared.aexpr.AExpr.{AExpr};
ghost use Rattle.plan_ir.specs.declared.ir.IR.{IR};
ghost use Rattle.plan_ir.specs.declared.ir.IR.TheVariants.{Distinct};
ghost use Rattle.plan_ir.specs.Parts.{plan_shape};
ghost use Rattle.plan_frame.specs.Frames.{names_or};
ghost use Rattle.plan_pruned.specs.Pruned.{asked_with};
ghost use Rattle.plan_prune_parts.specs.declared.step.Step.TheVariants.{Over};
ghost use Rattle.plan_prune_parts.specs.Said.{columns_at};
ghost use Rattle.plan_prune_names.specs.Known.{KnowsAt};

use plan_core::{Arena, Items, Names, Node, PlSmallStr};
use plan_ir::IR;
use plan_options::DistinctOptionsIR;
use plan_prune_names::{KnownColumns, add_columns_at};
use plan_prune_parts::Step;
use plan_pruned::add_listed;
use std::alloc::{AllocError, Global};

/// Adds the names by which rows are told apart: all of the input's where none are told. Refuses for want of memory alone, and then
/// nothing is known of the names.
fn add_subset(
    alloc: Global,
    names: &mut Names,
    subset: &Option<Items<PlSmallStr>>,
    input: Node,
    lp: &Arena<IR>,
    columns: &mut KnownColumns,
) -> Result<(), AllocError>
    requires stands { (t : Trees IR) × StandsOnce plan_shape lp.now (input ∷ []) t }
    requires known { KnowsAt columns.old lp.now (input ∷ []) }
    ensures known { OnOk result (KnowsAt columns.new lp.now (input ∷ [])) }
    ensures names { OnOk result ((ex : List AExpr) → names.new ≡ with_names names.old (names_or subset.now (names_of (columns_at lp.now ex input)))) }
{
    match subset {
        Some(told) => add_listed(names, told.as_slice()),
        None => add_columns_at(alloc, names, input, lp, columns),
    }
}

/// What distinct rows ask their input: the asked names, and then the other names by which rows are told apart; no names
/// stand for every column, and then they ask none.
fn asks(
    alloc: Global,
    asked: Names,
    subset: &Option<Items<PlSmallStr>>,
    input: Node,
    lp: &Arena<IR>,
    columns: &mut KnownColumns,
) -> Result<Names, AllocError>
    requires stands { (t : Trees IR) × StandsOnce plan_shape lp.now (input ∷ []) t }
    requires known { KnowsAt columns.old lp.now (input ∷ []) }
    ensures known { OnOk result (KnowsAt columns.new lp.now (input ∷ [])) }
    ensures names { IfOk result (λ names. (ex : List AExpr) → names ≡ asked_with asked (names_or subset.now (names_of (columns_at lp.now ex input)))) }
{
    let mut names = asked;
    if names.len() > 0 {
        add_subset(alloc, &mut names, subset, input, lp, columns)?;
    }
    Ok(names)
}

/// The step of distinct rows, by what is known of the columns of their input.
pub fn prepare(
    alloc: Global,
    input: Node,
    options: DistinctOptionsIR,
    asked: Names,
    lp: &Arena<IR>,
    columns: &mut KnownColumns,
) -> Result<Step, AllocError>
    requires stands { (t : Trees IR) × StandsOnce plan_shape lp.now (input ∷ []) t }
    requires known { KnowsAt columns.old lp.now (input ∷ []) }
    ensures known { OnOk result (KnowsAt columns.new lp.now (input ∷ [])) }
    ensures step { IfOk result (λ step. (ex : List AExpr) → step ≡ Over input (asked_with asked (names_or options.subset (names_of (columns_at lp.now ex input)))) (Distinct input options)) }
{
    let asked = asks(alloc, asked, &options.subset, input, lp, columns)?;
    Ok(Step::Over {
        input,
        asked,
        entry: IR::Distinct { input, options },
    })
}
