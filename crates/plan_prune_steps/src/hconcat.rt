//! A concatenation asks each of its inputs the asked names that it has, and goes back over the pruned inputs.
//! Asked something, it stores the columns that these say they have, those of one after those of another, of each name the
//! first. Asked nothing, it stays as it is and asks nothing.
ghost use Rattle.std.specs.Prelude.{◌≡◌, ◌<◌, ◌≤◌, List, [], ◌∷◌, IfOk, IsTrue, OnOk, fold, length, map, slice_set};
ghost use Rattle.plan_tree.specs.Stands.{Trees, StandsOnce};
ghost use Rattle.plan_expr.specs.declared.aexpr.AExpr.{AExpr};
ghost use Rattle.plan_ir.specs.declared.ir.IR.{IR};
ghost use Rattle.plan_ir.specs.declared.ir.IR.TheVariants.{HConcat};
ghost use Rattle.plan_ir.specs.Parts.{inputs_of, plan_shape};
ghost use Rattle.plan_frame.specs.Beside.{side_by_side, with_new};
ghost use Rattle.plan_prune_parts.specs.Kept.{beside_after};
ghost use Rattle.plan_prune_parts.specs.Said.{columns_at};
ghost use Rattle.plan_prune_steps.specs.Steps.{held_at, is_hconcat, step_of};

use crate::over::each;
use plan_core::{Arena, Items, Names, Node, PlSmallStr, Schema, TryClone};
use plan_ir::IR;
use plan_options::HConcatOptions;
use plan_prune_names::{Places, known_with};
use plan_prune_parts::Step;
use plan_schema::stored_schema;
use std::alloc::{AllocError, Global};

/// The asked names that each input has. The names have these places.
fn held(
    alloc: Global,
    inputs: &[Node],
    asked: &Names,
    places: &Places,
    lp: &Arena<IR>,
) -> Result<Items<Names>, AllocError>
    requires places { places.now ≡ asked.now }
    requires inputs { (t : Trees IR) × StandsOnce plan_shape lp.now inputs.now t }
    ensures { IfOk result (λ lists. (ex : List AExpr) → lists ≡ held_at lp.now ex asked.now inputs.now) }
{
    let mut lists = Items::new(alloc);
    for input in inputs {
        lists.push(known_with(alloc, asked, places, *input, lp)?)?;
    }
    Ok(lists)
}

/// What a concatenation asks its inputs: each of them the asked names that it has.
fn asks(
    alloc: Global,
    inputs: &[Node],
    asked: &Names,
    lp: &Arena<IR>,
) -> Result<Items<Names>, AllocError>
    requires { (t : Trees IR) × StandsOnce plan_shape lp.now inputs.now t }
    ensures { IfOk result (λ lists. (ex : List AExpr) → lists ≡ held_at lp.now ex asked.now inputs.now) }
{
    let places = Places::of(alloc, asked)?;
    held(alloc, inputs, asked, &places, lp)
}

/// The step of a concatenation.
pub fn prepare(
    alloc: Global,
    concatenation: IR,
    asked: &Names,
    lp: &Arena<IR>,
) -> Result<Step, AllocError>
    requires kind { IsTrue (is_hconcat concatenation) }
    requires inputs { (t : Trees IR) × StandsOnce plan_shape lp.now (inputs_of concatenation) t }
    ensures { IfOk result (λ step. (ex : List AExpr) → step ≡ step_of lp.now ex asked.now concatenation) }
{
    match concatenation {
        IR::HConcat {
            inputs,
            schema,
            options,
        } => {
            let copy = inputs.try_clone(alloc);
            let lists = asks(alloc, inputs.as_slice(), asked, lp);
            each(
                copy,
                lists,
                None,
                IR::HConcat {
                    inputs,
                    schema,
                    options,
                },
            )
        }
        _ => unreachable!(),
    }
}

/// Adds of more columns each whose name no column has, last. Refuses for want of memory alone.
fn add_new(alloc: Global, columns: &mut Schema, more: &Schema) -> Result<(), AllocError>
    ensures { OnOk result (columns.new ≡ fold with_new columns.old more.now) }
{
    for i in 0..more.len() {
        if let Some((name, dtype)) = more.get_at_index(i) {
            if columns.get(name).is_none() {
                let _ = columns.with_column(PlSmallStr::new(alloc, name)?, *dtype)?;
            }
        }
    }
    Ok(())
}

/// Adds of the columns that an input says it has each whose name no column has, last. Refuses for want of memory alone.
fn add_stored(
    alloc: Global,
    columns: &mut Schema,
    input: Node,
    lp: &Arena<IR>,
) -> Result<(), AllocError>
    requires { (t : Trees IR) × StandsOnce plan_shape lp.now (input ∷ []) t }
    ensures { OnOk result ((ex : List AExpr) → columns.new ≡ fold with_new columns.old (columns_at lp.now ex input)) }
{
    let stored = stored_schema(alloc, input, lp)?;
    add_new(alloc, columns, stored.columns())
}

/// The columns that inputs say they have, beside one another.
fn beside(alloc: Global, inputs: &[Node], lp: &Arena<IR>) -> Result<Schema, AllocError>
    requires { (t : Trees IR) × StandsOnce plan_shape lp.now inputs.now t }
    ensures { IfOk result (λ columns. (ex : List AExpr) → columns ≡ side_by_side (map (columns_at lp.now ex) inputs.now)) }
{
    let mut columns = Schema::new(alloc);
    for input in inputs {
        add_stored(alloc, &mut columns, *input, lp)?;
    }
    Ok(columns)
}

/// Puts a concatenation at `node`, over the pruned inputs; where names are asked, with their columns. Refuses for want of
/// memory alone, and then nothing is known of what stands at `node`.
pub fn put(
    alloc: Global,
    node: Node,
    inputs: Items<Node>,
    is_asked: bool,
    schema: Schema,
    options: HConcatOptions,
    lp: &mut Arena<IR>,
) -> Result<(), AllocError>
    requires node { node.0 < length lp.old }
    requires inputs { (t : Trees IR) × StandsOnce plan_shape lp.old inputs t }
    ensures placed { OnOk result ((ex : List AExpr) → lp.new ≡ slice_set lp.old node.0 (HConcat inputs (beside_after is_asked (map (columns_at lp.old ex) inputs) schema) options)) }
    ensures grows { length lp.old ≤ length lp.new }
{
    if !is_asked {
        lp.put(
            node,
            IR::HConcat {
                inputs,
                schema,
                options,
            },
        );
        return Ok(());
    }
    drop(schema);
    let schema = beside(alloc, inputs.as_slice(), lp)?;
    lp.put(
        node,
        IR::HConcat {
            inputs,
            schema,
            options,
        },
    );
    Ok(())
}
