//! A look over a run of additions: each pair of neighbours meets, from the top down.
ghost use Rattle.std.specs.Prelude.{◌≡◌, ◌-◌, ◌++◌, ◌||◌, All, IfOk, IsFalse, IsTrue, List, OnOk, Bool, length, reverse};
ghost use Rattle.plan_expr.specs.Operands.{IsExpr};
ghost use Rattle.plan_collapse_laws.specs.Runs.{looked_at};
ghost use Rattle.plan_cluster.specs.Layers.{IsOnce, layer_roots, links_at};
ghost use Rattle.plan_cluster.specs.Looks.{ArePart, IsUnderway};
ghost use Rattle.plan_cluster.specs.Meetings.{above_of, is_change};
ghost use Rattle.plan_cluster.specs.declared.layer.Layer.{Layer as LayerType};

use crate::layer::Layer;
use crate::meeting::{Meeting, meet_layers};
use plan_core::Arena;
use plan_expr::AExpr;
use std::alloc::{AllocError, Global};
use std::mem;

/// Adds what stands above the lower layer after a meeting. Says whether it changed something. Refuses for want of memory alone.
fn put_above(meeting: Meeting, upper: Layer, done: &mut Vec<Layer>) -> Result<bool, AllocError>
    ensures above { OnOk result (done.new.items ≡ done.old.items ++ above_of meeting upper) }
    ensures changed { IfOk result (λ changed. changed ≡ is_change meeting) }
{
    match meeting {
        Meeting::Merged => Ok(true),
        Meeting::Rests => {
            done.push(upper)?;
            Ok(false)
        }
        Meeting::Moved => {
            done.push(upper)?;
            Ok(true)
        }
        Meeting::Restores(columns) => {
            done.push(Layer::Projects(columns))?;
            done.push(upper)?;
            Ok(true)
        }
    }
}

/// Takes the next layer of those that are to do, last, and has it meet the one below it. Says whether this changed something. Refuses
/// for want of memory alone.
fn step(
    alloc: Global,
    todo: &mut Vec<Layer>,
    done: &mut Vec<Layer>,
    ex: &Arena<AExpr>,
) -> Result<bool, AllocError>
    requires stand { All (λ n. IsExpr ex.now n) (layer_roots (reverse todo.old.items)) }
    requires once { All IsOnce (reverse todo.old.items) }
    ensures fewer { OnOk result (length todo.new.items ≡ length todo.old.items - 1) }
    ensures goes_on { IfOk result (λ moves. (run : List LayerType) (changed : Bool) → IsUnderway ex.now run done.old.items (reverse todo.old.items) changed → IsUnderway ex.now run done.new.items (reverse todo.new.items) (changed || moves)) }
{
    let Some(mut upper) = todo.pop() else {
        return Ok(false);
    };
    let Some(mut lower) = todo.pop() else {
        return put_above(Meeting::Rests, upper, done);
    };
    let meeting = meet_layers(alloc, &mut upper, &mut lower, ex)?;
    todo.push(lower)?;
    put_above(meeting, upper, done)
}

/// Looks at each pair of neighbours of a run, topmost first. Says whether something changed. Refuses for want of memory alone.
pub fn look(alloc: Global, run: &mut Vec<Layer>, ex: &Arena<AExpr>) -> Result<bool, AllocError>
    requires stand { All (λ n. IsExpr ex.now n) (layer_roots run.old.items) }
    requires once { All IsOnce run.old.items }
    ensures looked { OnOk result (links_at ex.now run.new.items ≡ looked_at (links_at ex.now run.old.items)) }
    ensures same { IfOk result (λ moves. IsFalse moves → looked_at (links_at ex.now run.old.items) ≡ links_at ex.now run.old.items) }
    ensures moved { IfOk result (λ moves. IsTrue moves → looked_at (links_at ex.now run.old.items) ≡ links_at ex.now run.old.items → ⊥) }
    ensures roots { OnOk result (ArePart (layer_roots run.old.items) (layer_roots run.new.items)) }
    ensures once { OnOk result (All IsOnce run.new.items) }
{
    let mut done = Vec::new(alloc);
    let mut changed = false;
    run.reverse();
    while run.len() > 0 {
        if step(alloc, run, &mut done, ex)? {
            changed = true;
        }
    }
    mem::swap(run, &mut done);
    Ok(changed)
}
