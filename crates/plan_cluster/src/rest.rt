//! A run of additions is brought to rest.
ghost use Rattle.std.specs.Prelude.{◌≡◌, All, OnOk};
ghost use Rattle.plan_expr.specs.Operands.{IsExpr};
ghost use Rattle.plan_collapse_laws.specs.Runs.{rested as rested_run};
ghost use Rattle.plan_cluster.specs.Layers.{IsOnce, layer_roots, links_at};
ghost use Rattle.plan_cluster.specs.Looks.{ArePart};

use crate::layer::Layer;
use crate::look::look;
use plan_core::Arena;
use plan_expr::AExpr;
use std::alloc::{AllocError, Global};

/// Brings a run of additions, topmost first, to rest: looks at it until nothing changes. Refuses for want of memory alone.
pub fn rest(alloc: Global, run: &mut Vec<Layer>, ex: &Arena<AExpr>) -> Result<(), AllocError>
    requires stand { All (λ n. IsExpr ex.now n) (layer_roots run.old.items) }
    requires once { All IsOnce run.old.items }
    ensures rested { OnOk result (links_at ex.now run.new.items ≡ rested_run (links_at ex.now run.old.items)) }
    ensures roots { OnOk result (ArePart (layer_roots run.old.items) (layer_roots run.new.items)) }
    ensures once { OnOk result (All IsOnce run.new.items) }
{
    let mut moves = true;
    while moves {
        moves = look(alloc, run, ex)?;
    }
    Ok(())
}
