//! Trees that the numbers of an arena stand over, and walks over them.
#![tactic(auto)]

mod deeper;
mod entry;
pub mod laws;
mod levels;
mod walking;

pub use deeper::is_deeper;
pub use entry::Entry;
pub use levels::depth_of;
pub use walking::{Step, Walked, walk};
