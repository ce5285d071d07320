//! What only some kinds of joins are told, as a JSON value.
ghost use Rattle.std.specs.Prelude.{◌≡◌, IfOk};
ghost use Rattle.serde_json.specs.View.{view};
ghost use Rattle.plan_text_pieces.specs.JoinOptions.{inequalities_data, kind_options_data};

use crate::members::only;
use crate::values::{output, two_texts};
use plan_join::JoinTypeOptionsIR;
use plan_options::IEJoinOptions;
use plan_text_pieces::{done, inequality_name};
use serde_json::{Value, json};
use std::alloc::{AllocError, Global};

/// The array of the inequalities that keys meet, one for each pair.
#[tactic(auto, unfolding(plan_text_pieces::specs::JoinOptions::inequalities_data))]
fn inequalities(alloc: Global, given: IEJoinOptions) -> Result<Value, AllocError>
    ensures { IfOk result (λ v. view v ≡ inequalities_data given) }
{
    let first = inequality_name(given.operator1);
    match given.operator2 {
        None => json!(in alloc; [first]),
        Some(second) => two_texts(alloc, first, inequality_name(second)),
    }
}

/// The object of what only some kinds of joins are told.
#[tactic(auto, unfolding(plan_text_pieces::specs::JoinOptions::kind_options_data))]
pub fn kind_options(alloc: Global, given: &JoinTypeOptionsIR) -> Result<Value, AllocError>
    ensures { IfOk result (λ v. view v ≡ kind_options_data given.now) }
{
    match given {
        JoinTypeOptionsIR::IEJoin(operators) => {
            let array = done!(inequalities(alloc, *operators));
            only(alloc, "ie", array)
        }
        JoinTypeOptionsIR::Cross { predicate } => {
            let array = done!(output(alloc, predicate));
            only(alloc, "cross", array)
        }
    }
}
