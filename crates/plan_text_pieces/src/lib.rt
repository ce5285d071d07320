//! What the texts of plans are put together from: the names of kinds, and what stands under the keys of objects, as text.
#![tactic(auto)]

mod cells;
mod functions;
mod hive;
mod join_options;
mod kinds;
mod origins;
mod passing;
mod pieces;
mod scan_sources;
mod writing;

pub use cells::write_cell;
pub use functions::frame_function_name;
pub use kinds::{
    agg_name, coalesce_name, fault_name, function_name, how_name, inequality_name, keep_name,
    literal_type, operator_name, order_name, place, type_name,
};
pub use origins::{origin_name, output_text};
pub use pieces::{
    Entries, Piece, optional_columns, optional_hive_parts, optional_kind_options, optional_name,
    optional_names, optional_number, optional_output, optional_row_index, optional_slice, sources,
};
pub use writing::{write_columns, write_names, write_object};
