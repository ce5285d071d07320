//! A cache stays as it is, and so does all below it: every column is kept for those that share it.
//! Asked something, it gets a projection to the asked names on top. It asks nothing.
ghost use Rattle.std.specs.Prelude.{◌≡◌, List, [], ◌∷◌, IfOk, IsTrue};
ghost use Rattle.plan_tree.specs.Stands.{Trees, StandsOnce};
ghost use Rattle.plan_expr.specs.declared.aexpr.AExpr.{AExpr};
ghost use Rattle.plan_ir.specs.declared.ir.IR.{IR};
ghost use Rattle.plan_ir.specs.Parts.{inputs_of, plan_shape};
ghost use Rattle.plan_prune_parts.specs.Said.{columns_at};
ghost use Rattle.plan_pruned.specs.Pruned.{asked_columns as columns_asked};
ghost use Rattle.plan_prune_steps.specs.Steps.{is_cache, step_of};

use plan_core::{Arena, Names, Node, Schema};
use plan_ir::IR;
use plan_prune_parts::Step;
use plan_pruned::asked_columns;
use plan_schema::stored_schema;
use std::alloc::{AllocError, Global};

/// The columns of the projection that goes on top of what is asked these names; none where nothing is asked.
fn columns(
    alloc: Global,
    asked: &Names,
    input: Node,
    lp: &Arena<IR>,
) -> Result<Option<Schema>, AllocError>
    requires { (t : Trees IR) × StandsOnce plan_shape lp.now (input ∷ []) t }
    ensures { IfOk result (λ columns. (ex : List AExpr) → columns ≡ columns_asked asked.now (columns_at lp.now ex input)) }
{
    let stored = stored_schema(alloc, input, lp)?;
    asked_columns(alloc, asked, stored.columns())
}

/// The step of a cache.
pub fn prepare(alloc: Global, cache: IR, asked: &Names, lp: &Arena<IR>) -> Result<Step, AllocError>
    requires kind { IsTrue (is_cache cache) }
    requires inputs { (t : Trees IR) × StandsOnce plan_shape lp.now (inputs_of cache) t }
    ensures { IfOk result (λ step. (ex : List AExpr) → step ≡ step_of lp.now ex asked.now cache) }
{
    match cache {
        IR::Cache {
            input,
            id,
            cache_hits,
        } => {
            let columns = columns(alloc, asked, input, lp)?;
            Ok(Step::Closed {
                columns,
                entry: IR::Cache {
                    input,
                    id,
                    cache_hits,
                },
            })
        }
        _ => unreachable!(),
    }
}
