//! A simple projection keeps its asked columns, in its own order; asked nothing, it keeps them all.
//! It asks its input the names that it keeps.
ghost use Rattle.std.specs.Prelude.{◌≡◌, [], IfOk};
ghost use Rattle.plan_core.specs.Columns.{names_of};
ghost use Rattle.plan_core.specs.Names.{with_names};
ghost use Rattle.plan_ir.specs.declared.ir.IR.TheVariants.{SimpleProjection};
ghost use Rattle.plan_pruned.specs.Pruned.{kept as kept_of};
ghost use Rattle.plan_prune_parts.specs.declared.step.Step.TheVariants.{Over};

use crate::over::over;
use crate::reads::with_added;
use plan_core::{Names, Node, Schema};
use plan_ir::IR;
use plan_prune_parts::Step;
use plan_pruned::{add_columns, kept_columns};
use std::alloc::{AllocError, Global};

/// What a projection asks its input: the names of its columns, in order.
fn asks(alloc: Global, columns: &Schema) -> Result<Names, AllocError>
    ensures { IfOk result (λ names. names ≡ with_names [] (names_of columns.now)) }
{
    let mut names = Names::new(alloc);
    let added = add_columns(&mut names, columns);
    with_added(names, added)
}

/// The step of a projection.
pub fn prepare(
    alloc: Global,
    input: Node,
    columns: Schema,
    asked: &Names,
) -> Result<Step, AllocError>
    ensures { IfOk result (λ step. step ≡ Over input (with_names [] (names_of (kept_of asked.now columns))) (SimpleProjection input (kept_of asked.now columns))) }
{
    let columns = kept_columns(alloc, columns, asked)?;
    over(
        input,
        asks(alloc, &columns),
        IR::SimpleProjection { input, columns },
    )
}
