//! How joins name the columns that they put out.
#![tactic(auto)]

mod kinds;
pub mod laws;
mod matches;
mod options;
mod origin;
mod pairs;
mod schema;

pub use kinds::goes_right;
pub use matches::Matches;
pub use options::{JoinOptions, JoinTypeOptionsIR};
pub use origin::{Side, join_origin};
pub use pairs::{RowPair, row_pairs};
pub use schema::{join_schema, left_rest, right_name, right_rest};
