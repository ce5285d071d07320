//! A scan of a frame that is handed in puts out the asked names alone, in the asked order. Asked nothing, it is unchanged.
ghost use Rattle.std.specs.Prelude.{◌≡◌, IfOk, IsTrue, List};
ghost use Rattle.plan_expr.specs.declared.aexpr.AExpr.{AExpr};
ghost use Rattle.plan_ir.specs.declared.ir.IR.{IR};
ghost use Rattle.plan_ir.specs.Parts.{is_frame_scan};
ghost use Rattle.plan_prune_steps.specs.Steps.{step_of};

use plan_core::Names;
use plan_ir::IR;
use plan_prune_parts::Step;
use plan_pruned::pruned_output;
use std::alloc::{AllocError, Global};

/// The step of a scan of a frame.
pub fn prepare(alloc: Global, scan: IR, asked: &Names) -> Result<Step, AllocError>
    requires { IsTrue (is_frame_scan scan) }
    ensures { IfOk result (λ step. (lp : List IR) (ex : List AExpr) → step ≡ step_of lp ex asked.now scan) }
{
    match scan {
        IR::DataFrameScan {
            df,
            schema,
            output_schema,
        } => {
            match pruned_output(alloc, output_schema, &schema, asked) {
                Ok(output_schema) => Ok(Step::Leaf {
                    columns: None,
                    entry: IR::DataFrameScan {
                        df,
                        schema,
                        output_schema,
                    },
                }),
                Err(error) => {
                    drop(schema);
                    Err(error)
                }
            }
        }
        _ => unreachable!(),
    }
}
