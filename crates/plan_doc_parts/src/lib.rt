//! The parts of documents: what JSON values stand for alone, in arrays, and under the keys of objects.
#![tactic(auto)]

mod arrays;
mod fault;
mod members;
mod optional;
mod parts;
mod reading;
mod values;

pub use arrays::{arena_of_each, each};
pub use fault::Fault;
pub use members::{
    columns_at, field, integer_at, link_at, links_at, name_at, names_at, number_at, numbers_at,
    object, only, options_at, output_at, outputs_at, truth_at, truths_at,
};
pub use optional::{
    optional_columns_at, optional_name_at, optional_names_at, optional_number_at,
    optional_output_at, optional_slice_at,
};
pub use parts::{
    data_type, entries, integer, name, number, output, plain_type, text, three, truth, two,
};
pub use values::{any_value, any_values};
