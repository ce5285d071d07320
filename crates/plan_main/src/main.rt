//! The program: the words after its name, standard input and output, and the status as exit status.
#![tactic(auto)]

use plan_reshape::BoxedRule;
use plan_rule::DropTrueFilter;
use plan_stream::{ReadSource, WriteSink};
use plan_tool::{Status, run};
use std::alloc::AllocError;
use std::process::ExitCode;
use std::{env, io};

/// The words after the program's name. Words that are no text are no command.
fn words(rt: &HostRuntime) -> Result<Vec<String>, Status> {
    let mut words = Vec::new(rt.alloc());
    let args = match env::args(rt) {
        Ok(args) => args,
        Err(error) if error.kind() == io::ErrorKind::OutOfMemory => {
            return Err(Status::OutOfMemory);
        }
        Err(_) => return Err(Status::Usage),
    };
    for word in args.skip(1) {
        if words.push(word).is_err() {
            return Err(Status::OutOfMemory);
        }
    }
    Ok(words)
}

/// Runs the command that the words name over standard input and output, with one rule beside those that flags ask for: it takes away
/// filters by the literal true. Refuses for want of memory alone, and then nothing is written.
fn obey(rt: &HostRuntime, words: &[String]) -> Result<Status, AllocError> {
    let mut extra = Vec::new(rt.alloc());
    extra.push(BoxedRule::new(Box::new(rt.alloc(), DropTrueFilter)?))?;
    let mut source = ReadSource::new(rt.reader());
    let mut sink = WriteSink::new(io::writer(rt));
    Ok(run(rt.alloc(), words, &mut source, &mut sink, &mut extra))
}

/// How the program ends.
fn answer(rt: &HostRuntime) -> Status {
    match words(rt) {
        Ok(words) => match obey(rt, words.as_slice()) {
            Ok(status) => status,
            Err(_) => Status::OutOfMemory,
        },
        Err(status) => status,
    }
}

fn main(rt: HostRuntime) -> ExitCode {
    ExitCode::from(answer(&rt).code())
}
