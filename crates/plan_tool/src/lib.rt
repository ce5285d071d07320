//! The program: from words and the bytes of a document to the text of its answer.
#![tactic(auto)]

mod answers;
mod check;
mod command;
mod listings;
mod program;
mod rows;
mod schemas;
mod status;
mod stop;

pub use program::{LIMIT, run};
pub use status::Status;
