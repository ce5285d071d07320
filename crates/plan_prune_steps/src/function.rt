//! A function of the whole frame stays as it is.
//! Asked something, it asks its input the names that it needs for that. Asked nothing, it asks nothing.
ghost use Rattle.std.specs.Prelude.{◌≡◌, List, [], ◌∷◌, IfOk, OnOk};
ghost use Rattle.plan_tree.specs.Stands.{Trees, StandsOnce};
ghost use Rattle.plan_expr.specs.declared.aexpr.AExpr.{AExpr};
ghost use Rattle.plan_ir.specs.declared.ir.IR.{IR};
ghost use Rattle.plan_ir.specs.declared.ir.IR.TheVariants.{MapFunction};
ghost use Rattle.plan_ir.specs.Parts.{plan_shape};
ghost use Rattle.plan_meaning.specs.Asked.{function_names};
ghost use Rattle.plan_pruned.specs.Pruned.{mapped_names};
ghost use Rattle.plan_prune_parts.specs.declared.step.Step.TheVariants.{Over};
ghost use Rattle.plan_prune_parts.specs.Said.{columns_at};
ghost use Rattle.plan_prune_names.specs.Known.{KnowsAt};

use plan_core::{Arena, Names, Node, Schema};
use plan_ir::{FunctionIR, IR};
use plan_prune_names::{KnownColumns, known_by, renamed_names};
use plan_prune_parts::Step;
use plan_pruned::needed_names;
use std::alloc::{AllocError, Global};

/// What a function asks its input for these names, of which there are some. Only a numbering of the rows and a renaming look at the
/// columns of the input.
fn needed(
    alloc: Global,
    asked: &Names,
    function: &FunctionIR,
    input: Node,
    lp: &Arena<IR>,
    columns: &mut KnownColumns,
) -> Result<Names, AllocError>
    requires stands { (t : Trees IR) × StandsOnce plan_shape lp.now (input ∷ []) t }
    requires known { KnowsAt columns.old lp.now (input ∷ []) }
    ensures known { OnOk result (KnowsAt columns.new lp.now (input ∷ [])) }
    ensures names { IfOk result (λ names. (ex : List AExpr) → names ≡ function_names function.now asked.now (columns_at lp.now ex input)) }
{
    match function {
        FunctionIR::RowIndex { .. } => known_by(alloc, asked, input, lp, columns),
        FunctionIR::Rename { .. } => renamed_names(alloc, asked, function, input, lp, columns),
        FunctionIR::Unpivot { .. } => needed_names(alloc, function, asked, &Schema::new(alloc)),
        FunctionIR::Explode { .. } => needed_names(alloc, function, asked, &Schema::new(alloc)),
        FunctionIR::FastCount { .. } => needed_names(alloc, function, asked, &Schema::new(alloc)),
    }
}

/// What a function asks its input; no names stand for every column.
fn asks(
    alloc: Global,
    asked: &Names,
    function: &FunctionIR,
    input: Node,
    lp: &Arena<IR>,
    columns: &mut KnownColumns,
) -> Result<Names, AllocError>
    requires stands { (t : Trees IR) × StandsOnce plan_shape lp.now (input ∷ []) t }
    requires known { KnowsAt columns.old lp.now (input ∷ []) }
    ensures known { OnOk result (KnowsAt columns.new lp.now (input ∷ [])) }
    ensures names { IfOk result (λ names. (ex : List AExpr) → names ≡ mapped_names asked.now function.now (columns_at lp.now ex input)) }
{
    if asked.len() == 0 {
        return Ok(Names::new(alloc));
    }
    needed(alloc, asked, function, input, lp, columns)
}

/// The step of a function, by what is known of the columns of its input.
pub fn prepare(
    alloc: Global,
    input: Node,
    function: FunctionIR,
    asked: Names,
    lp: &Arena<IR>,
    columns: &mut KnownColumns,
) -> Result<Step, AllocError>
    requires stands { (t : Trees IR) × StandsOnce plan_shape lp.now (input ∷ []) t }
    requires known { KnowsAt columns.old lp.now (input ∷ []) }
    ensures known { OnOk result (KnowsAt columns.new lp.now (input ∷ [])) }
    ensures step { IfOk result (λ step. (ex : List AExpr) → step ≡ Over input (mapped_names asked function (columns_at lp.now ex input)) (MapFunction input function)) }
{
    let asked = asks(alloc, &asked, &function, input, lp, columns)?;
    Ok(Step::Over {
        input,
        asked,
        entry: IR::MapFunction { input, function },
    })
}
