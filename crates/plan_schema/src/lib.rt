//! Functions of whole frames: how they name columns, the columns that they give, and the checks on them.
#![tactic(auto)]

mod count;
mod explode;
mod function;
mod names;
mod place;
mod renaming;
mod stored;
mod unpivot;
mod unpivot_names;

pub use count::count_name;
pub use function::function_schema;
pub use names::{check_names_known, check_names_new, is_column, set_of};
pub use place::at;
pub use renaming::Renaming;
pub use stored::{StoredSchema, stored_schema};
pub use unpivot_names::{value_name, value_names, variable_name};
