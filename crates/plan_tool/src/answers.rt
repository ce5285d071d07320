//! From the bytes of a document to the text that a command writes.
ghost use Rattle.std.specs.Prelude.{◌≡◌, map};
ghost use Rattle.plan_tool.specs.Answers.{SaysOf};
ghost use Rattle.plan_top.specs.Chains.{boxes_of};

use crate::command::Command;
use crate::listings::listing;
use crate::schemas::schema;
use crate::stop::Stop;
use plan_doc::read_document;
use plan_reshape::{BoxedRule, OptimizationRule};
use std::alloc::Global;

/// The text that the command writes for the document that the bytes stand for, or why there is none. `optimize` calls the boxes too.
#[tactic(auto, using(crate::proofs::AnswerLemmas::said))]
pub fn answer(
    alloc: Global,
    command: Command,
    bytes: &[u8],
    extra: &mut Vec<BoxedRule>,
) -> Result<String, Stop>
    ensures says { SaysOf (boxes_of (map ⟦<BoxedRule as OptimizationRule>⟧.kind_of extra.old.items) (map ⟦<BoxedRule as OptimizationRule>⟧.is_own extra.old.items)) command result bytes.now }
    ensures kinds { map ⟦<BoxedRule as OptimizationRule>⟧.kind_of extra.new.items ≡ map ⟦<BoxedRule as OptimizationRule>⟧.kind_of extra.old.items }
    ensures owns { map ⟦<BoxedRule as OptimizationRule>⟧.is_own extra.new.items ≡ map ⟦<BoxedRule as OptimizationRule>⟧.is_own extra.old.items }
{
    let document = read_document(alloc, bytes)?;
    match command {
        Command::Optimize => listing(alloc, document, extra),
        Command::Check => schema(alloc, document),
    }
}
