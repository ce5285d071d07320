//! A sink stays as it is, and asks its input what is asked of it.
ghost use Rattle.std.specs.Prelude.{◌≡◌};
ghost use Rattle.plan_ir.specs.declared.ir.IR.TheVariants.{Sink};
ghost use Rattle.plan_prune_parts.specs.declared.step.Step.TheVariants.{Over};

use plan_core::{Names, Node};
use plan_ir::IR;
use plan_options::SinkType;
use plan_prune_parts::Step;

/// The step of a sink.
pub fn prepare(input: Node, payload: SinkType, asked: Names) -> Step
    ensures { result ≡ Over input asked (Sink input payload) }
{
    Step::Over {
        input,
        asked,
        entry: IR::Sink { input, payload },
    }
}
