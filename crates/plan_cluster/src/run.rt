//! A run of additions taken out of an arena, and a run put back.
ghost use Rattle.std.specs.Prelude.{◌≡◌, ◌<◌, [], ◌++◌, ◌∷◌, All, IfOk, IfSome, OnOk, Some, length, slice_get, slice_set};
ghost use Rattle.plan_core.specs.declared.arena.Node.{Node as NodeType};
ghost use Rattle.plan_tree.specs.Stands.{StandsOnce, Trees};
ghost use Rattle.plan_ir.specs.declared.ir.IR.{IR as IRType};
ghost use Rattle.plan_ir.specs.Parts.{plan_shape};
ghost use Rattle.plan_cluster.specs.Chains.{AllDiffer, PutBack, PutOne, TakenOne, TakenOut, node_over};

use crate::layer::{Addition, Layer};
use plan_core::{Arena, Node};
use plan_ir::IR;
use std::alloc::AllocError;

/// The node that a layer is over an input.
fn over(layer: Layer, input: Node) -> IR
    ensures { result ≡ node_over layer input }
{
    match layer {
        Layer::Adds(
            Addition {
                exprs,
                schema,
                options,
            },
        ) => IR::HStack {
            input,
            exprs,
            schema,
            options,
        },
        Layer::Projects(columns) => IR::SimpleProjection { input, columns },
    }
}

/// Takes the addition at `node` out, as the lowest layer of a run, and gives its input; another node stays. Refuses for want of
/// memory alone.
fn take_addition(
    node: Node,
    lp: &mut Arena<IR>,
    run: &mut Vec<Layer>,
) -> Result<Option<Node>, AllocError>
    requires { node.0 < length lp.old }
    ensures { IfOk result (λ input. (p : IRType) × (slice_get lp.old node.0 ≡ Some p) × TakenOne lp.old lp.new node p run.old.items run.new.items input) }
{
    match lp.take(node) {
        IR::HStack {
            input,
            exprs,
            schema,
            options,
        } => {
            run.push(Layer::Adds(Addition {
                exprs,
                schema,
                options,
            }))?;
            Ok(Some(input))
        }
        other => {
            lp.put(node, other);
            Ok(None)
        }
    }
}

/// Takes the run of additions that begins at `node` out, topmost first, with its numbers, and gives the number of the node below it.
/// Refuses for want of memory alone.
pub fn take_run(
    node: Node,
    lp: &mut Arena<IR>,
    run: &mut Vec<Layer>,
    places: &mut Vec<Node>,
) -> Result<Node, AllocError>
    requires plan { (t : Trees IRType) × StandsOnce plan_shape lp.old (node ∷ []) t }
    requires run { run.old.items ≡ [] }
    requires places { places.old.items ≡ [] }
    ensures { IfOk result (λ below. TakenOut lp.old lp.new node places.new.items run.new.items below) }
{
    let mut below = node;
    while let Some(input) = take_addition(below, lp, run)? {
        places.push(below)?;
        below = input;
    }
    Ok(below)
}

/// Puts a node at a number, or behind the others where there is none, and gives its number. Refuses for want of memory alone.
fn put_at(place: Option<Node>, entry: IR, lp: &mut Arena<IR>) -> Result<Node, AllocError>
    requires { IfSome place (λ n. n.0 < length lp.old) }
    ensures { IfOk result (λ n. PutOne lp.old lp.new place n entry) }
{
    match place {
        Some(node) => {
            lp.put(node, entry);
            Ok(node)
        }
        None => Ok(lp.add(entry)?),
    }
}

/// The number in a place, counted from 0, if there are so many.
fn place_at(places: &[Node], place: usize) -> Option<Node>
    ensures { result ≡ slice_get places.now place }
{
    if place < places.len() {
        Some(places[place])
    } else {
        None
    }
}

/// Puts a run, topmost first, back over the node at `below`: at these numbers, from the first on, and at new ones where the run is longer.
/// Refuses for want of memory alone.
pub fn put_run(
    below: Node,
    places: &[Node],
    run: &mut Vec<Layer>,
    lp: &mut Arena<IR>,
) -> Result<(), AllocError>
    requires within { All (λ (n : NodeType). n.0 < length lp.old) places.now }
    requires differ { AllDiffer places.now }
    ensures { OnOk result (PutBack lp.old lp.new places.now run.old.items below) }
{
    let mut top = below;
    while let Some(layer) = run.pop() {
        let entry = over(layer, top);
        top = put_at(place_at(places, run.len()), entry, lp)?;
    }
    Ok(())
}
