//! What only some kinds of joins are told, as text.
ghost use Rattle.std.specs.Prelude.{◌≡◌, ◌++◌, OnOk};
ghost use Rattle.json.specs.Tree.{json_tokens};
ghost use Rattle.serde_json.specs.Written.{outline};
ghost use Rattle.plan_text_pieces.specs.JoinOptions.{inequalities_data, kind_options_data};

use crate::done;
use crate::kinds::inequality_name;
use crate::writing::write_output;
use json::Writer;
use plan_join::JoinTypeOptionsIR;
use plan_options::IEJoinOptions;
use std::alloc::AllocError;

/// Writes the array of the inequalities that keys meet, one for each pair.
#[tactic(auto, unfolding(crate::specs::JoinOptions::inequalities_data))]
fn write_inequalities(writer: &mut Writer, given: IEJoinOptions) -> Result<(), AllocError>
    ensures tokens { OnOk result (writer.new.tokens
        ≡ writer.old.tokens ++ json_tokens (outline (inequalities_data given))) }
    ensures before { OnOk result (writer.new.before ≡ writer.old.before) }
{
    done!(writer.begin_array());
    done!(writer.string(inequality_name(given.operator1)));
    match given.operator2 {
        None => writer.end_array(),
        Some(second) => {
            done!(writer.string(inequality_name(second)));
            writer.end_array()
        }
    }
}

/// Writes the object of what only some kinds of joins are told.
#[tactic(auto, unfolding(crate::specs::JoinOptions::kind_options_data))]
pub fn write_kind_options(writer: &mut Writer, given: &JoinTypeOptionsIR) -> Result<(), AllocError>
    ensures tokens { OnOk result (writer.new.tokens
        ≡ writer.old.tokens ++ json_tokens (outline (kind_options_data given.now))) }
    ensures before { OnOk result (writer.new.before ≡ writer.old.before) }
{
    done!(writer.begin_object());
    match given {
        JoinTypeOptionsIR::IEJoin(operators) => {
            done!(writer.key("ie"));
            done!(write_inequalities(writer, *operators));
        }
        JoinTypeOptionsIR::Cross { predicate } => {
            done!(writer.key("cross"));
            done!(write_output(writer, predicate));
        }
    }
    writer.end_object()
}
