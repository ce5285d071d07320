//! The program: words and a source in, a text and a status out.
ghost use Rattle.std.specs.Prelude.{◌≡◌, map, string_bytes};
ghost use Rattle.plan_tool.specs.Causes.{Comes, Completes, Finishes, Follows};
ghost use Rattle.plan_tool.specs.Limits.{byte_limit};
ghost use Rattle.plan_top.specs.Chains.{boxes_of};

use crate::answers::answer;
use crate::command::{Command, command_of};
use crate::status::Status;
use crate::stop::Stop;
use plan_reshape::{BoxedRule, OptimizationRule};
use plan_stream::{ReadFault, Sink, Source, read_all, write_text};
use plan_text::write_fault;
use std::alloc::Global;

/// A document has at most so many bytes.
pub const LIMIT: usize = 16777216;

/// Writes a text whole and flushes the sink; the answer stands where both succeed.
fn finish<K: Sink>(text: &[u8], sink: &mut K, answer: Status) -> Status
    ensures { Finishes text.now (K.held sink.old) (K.held sink.new) (K.clean sink.new) (K.faults sink.old) (K.faults sink.new) answer result }
{
    match write_text(text, sink) {
        Ok(()) => answer,
        Err(_) => Status::WriteFault,
    }
}

/// Reads a document from the source, and writes the command's answer for it to the sink, or the text of its plan's first
/// fault.
fn obey<S: Source, K: Sink>(
    alloc: Global,
    command: Command,
    source: &mut S,
    sink: &mut K,
    extra: &mut Vec<BoxedRule>,
) -> Status
    ensures follows { Follows byte_limit command (record {
      boxes = boxes_of (map ⟦<BoxedRule as OptimizationRule>⟧.kind_of extra.old.items) (map ⟦<BoxedRule as OptimizationRule>⟧.is_own extra.old.items);
      given = S.left source.old;
      left = S.left source.new;
      held = K.held sink.old;
      holds = K.held sink.new;
      clean = K.clean sink.new;
      read_faults = S.faults source.old;
      read_faults_now = S.faults source.new;
      write_faults = K.faults sink.old;
      write_faults_now = K.faults sink.new;
    }) result }
    ensures kinds { map ⟦<BoxedRule as OptimizationRule>⟧.kind_of extra.new.items ≡ map ⟦<BoxedRule as OptimizationRule>⟧.kind_of extra.old.items }
    ensures owns { map ⟦<BoxedRule as OptimizationRule>⟧.is_own extra.new.items ≡ map ⟦<BoxedRule as OptimizationRule>⟧.is_own extra.old.items }
{
    let bytes = match read_all(alloc, source, LIMIT) {
        Ok(bytes) => bytes,
        Err(ReadFault::Limit) => return Status::Limit,
        Err(ReadFault::Failed) => return Status::ReadFault,
        Err(ReadFault::Memory) => return Status::OutOfMemory,
    };
    match answer(alloc, command, &bytes, extra) {
        Ok(text) => finish(text.as_bytes(), sink, Status::Done),
        Err(Stop::Fault(fault)) => match write_fault(alloc, &fault) {
            Ok(text) => finish(text.as_bytes(), sink, Status::Refused),
            Err(_) => Status::OutOfMemory,
        },
        Err(Stop::NotJson) => Status::NotJson,
        Err(Stop::Form) => Status::Form,
        Err(Stop::Limit) => Status::Limit,
        Err(Stop::Unfit) => Status::Unfit,
        Err(Stop::OutOfMemory) => Status::OutOfMemory,
    }
}

/// Does what the words, those after the program's name, ask for. `optimize` reads a document from the source, optimises
/// its plan, and writes the listing of the plan to the sink; `check` reads a document and writes the schema of its plan.
/// Where the plan has a fault, both write the text of the first one in its place. `optimize` calls the rules in `extra` too, after its
/// own; `extra` keeps as many boxes, of the kinds that they had.
pub fn run<S: Source, K: Sink>(
    alloc: Global,
    words: &[String],
    source: &mut S,
    sink: &mut K,
    extra: &mut Vec<BoxedRule>,
) -> Status
    ensures comes { Comes byte_limit (map string_bytes words.now) (record {
      boxes = boxes_of (map ⟦<BoxedRule as OptimizationRule>⟧.kind_of extra.old.items) (map ⟦<BoxedRule as OptimizationRule>⟧.is_own extra.old.items);
      given = S.left source.old;
      left = S.left source.new;
      held = K.held sink.old;
      holds = K.held sink.new;
      clean = K.clean sink.new;
      read_faults = S.faults source.old;
      read_faults_now = S.faults source.new;
      write_faults = K.faults sink.old;
      write_faults_now = K.faults sink.new;
    }) result }
    ensures complete { Completes byte_limit (map string_bytes words.now) (record {
      boxes = boxes_of (map ⟦<BoxedRule as OptimizationRule>⟧.kind_of extra.old.items) (map ⟦<BoxedRule as OptimizationRule>⟧.is_own extra.old.items);
      given = S.left source.old;
      left = S.left source.new;
      held = K.held sink.old;
      holds = K.held sink.new;
      clean = K.clean sink.new;
      read_faults = S.faults source.old;
      read_faults_now = S.faults source.new;
      write_faults = K.faults sink.old;
      write_faults_now = K.faults sink.new;
    }) result }
    ensures kinds { map ⟦<BoxedRule as OptimizationRule>⟧.kind_of extra.new.items ≡ map ⟦<BoxedRule as OptimizationRule>⟧.kind_of extra.old.items }
    ensures owns { map ⟦<BoxedRule as OptimizationRule>⟧.is_own extra.new.items ≡ map ⟦<BoxedRule as OptimizationRule>⟧.is_own extra.old.items }
{
    match command_of(words) {
        Some(command) => obey(alloc, command, source, sink, extra),
        None => Status::Usage,
    }
}
