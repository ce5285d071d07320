//! A slice stays as it is, and asks its input what is asked of it.
ghost use Rattle.std.specs.Prelude.{◌≡◌};
ghost use Rattle.plan_ir.specs.declared.ir.IR.TheVariants.{Slice};
ghost use Rattle.plan_prune_parts.specs.declared.step.Step.TheVariants.{Over};

use plan_core::{Names, Node};
use plan_ir::IR;
use plan_prune_parts::Step;

/// The step of a slice.
pub fn prepare(input: Node, offset: i64, len: u32, asked: Names) -> Step
    ensures { result ≡ Over input asked (Slice input offset len) }
{
    Step::Over {
        input,
        asked,
        entry: IR::Slice { input, offset, len },
    }
}
