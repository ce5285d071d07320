//! What stands under the keys of objects, told by the parts of a plan, so that no value need be made of them.
ghost use Rattle.std.specs.Prelude.{◌≡◌};
ghost use Rattle.serde_json.specs.Data.{string};
ghost use Rattle.plan_text_pieces.specs.Values.{columns_data, names_data, nullable_data, number_data, output_data, row_index_data, slice_data, sources_data};
ghost use Rattle.plan_text_pieces.specs.JoinOptions.{kind_options_data};
ghost use Rattle.plan_text_pieces.specs.Hive.{hive_parts_data};
ghost use Rattle.plan_text_pieces.specs.Pieces.{piece_data};

use plan_core::{Items, Node, PlSmallStr, ProjectionOptions, RowIndex, Schema};
use plan_expr::ExprIR;
use plan_ir::FunctionIR;
use plan_join::JoinTypeOptionsIR;
use plan_scan::{HivePartitions, ScanSources};

/// A value that is to be written.
#[derive(Clone, Copy)]
pub enum Piece<'a> {
    /// Null.
    Null,
    /// A truth value.
    Boolean(bool),
    /// The array of two truth values.
    BooleanPair(bool, bool),
    /// The array of truth values.
    Booleans(&'a [bool]),
    /// A number from 0 on.
    Number(usize),
    /// A whole number.
    Integer(i64),
    /// A text.
    Text(&'a str),
    /// The array of names.
    Names(&'a [PlSmallStr]),
    /// The object of paths.
    Paths(&'a [PlSmallStr]),
    /// The object of the numbers of buffers.
    Buffers(&'a [u32]),
    /// The array of the hive columns of each source, each column with its name, its type and its value.
    HiveParts(&'a [HivePartitions]),
    /// The array of columns, each with its name and its type.
    Columns(&'a Schema),
    /// The array of the numbers of nodes or of expressions.
    Links(&'a [Node]),
    /// An expression that is put out: its number, where its name comes from, and its name.
    Output(&'a ExprIR),
    /// The array of expressions that are put out.
    Outputs(&'a [ExprIR]),
    /// The three truth values of what a node that makes columns may do.
    Options(ProjectionOptions),
    /// The object of a function of whole frames, under its name.
    Function(&'a FunctionIR),
    /// The object of what only some kinds of joins are told.
    KindOptions(&'a JoinTypeOptionsIR),
    /// The name of the column that numbers the rows, and the number of the first row.
    RowIndex(&'a RowIndex),
    /// The first row, and how many rows.
    Slice(i64, usize),
}

/// The entries of an object, in byte order of their keys.
pub type Entries<'a> = Vec<(&'a str, Piece<'a>)>;

/// Columns, or null.
pub fn optional_columns(given: &Option<Schema>) -> Piece<'_>
    ensures { piece_data result ≡ nullable_data columns_data given.now }
{
    match given {
        None => Piece::Null,
        Some(schema) => Piece::Columns(schema),
    }
}

/// Names, or null.
pub fn optional_names(given: &Option<Items<PlSmallStr>>) -> Piece<'_>
    ensures { piece_data result ≡ nullable_data names_data given.now }
{
    match given {
        None => Piece::Null,
        Some(names) => Piece::Names(names.as_slice()),
    }
}

/// A name, or null.
pub fn optional_name(given: &Option<PlSmallStr>) -> Piece<'_>
    ensures { piece_data result ≡ nullable_data string given.now }
{
    match given {
        None => Piece::Null,
        Some(name) => Piece::Text(name.as_str()),
    }
}

/// A number, or null.
pub fn optional_number(given: Option<u32>) -> Piece<'static>
    ensures { piece_data result ≡ nullable_data number_data given }
{
    match given {
        None => Piece::Null,
        Some(number) => Piece::Number(number as usize),
    }
}

/// An expression that is put out, or null.
pub fn optional_output(given: &Option<ExprIR>) -> Piece<'_>
    ensures { piece_data result ≡ nullable_data output_data given.now }
{
    match given {
        None => Piece::Null,
        Some(expr) => Piece::Output(expr),
    }
}

/// The hive columns of each source, or null.
pub fn optional_hive_parts(given: &Option<Items<HivePartitions>>) -> Piece<'_>
    ensures { piece_data result ≡ nullable_data hive_parts_data given.now }
{
    match given {
        None => Piece::Null,
        Some(parts) => Piece::HiveParts(parts.as_slice()),
    }
}

/// The column that numbers the rows, or null.
pub fn optional_row_index(given: &Option<RowIndex>) -> Piece<'_>
    ensures { piece_data result ≡ nullable_data row_index_data given.now }
{
    match given {
        None => Piece::Null,
        Some(column) => Piece::RowIndex(column),
    }
}

/// What only some kinds of joins are told, or null.
pub fn optional_kind_options(given: &Option<JoinTypeOptionsIR>) -> Piece<'_>
    ensures { piece_data result ≡ nullable_data kind_options_data given.now }
{
    match given {
        None => Piece::Null,
        Some(options) => Piece::KindOptions(options),
    }
}

/// The first row and how many rows, or null.
pub fn optional_slice(given: Option<(i64, usize)>) -> Piece<'static>
    ensures { piece_data result ≡ nullable_data slice_data given }
{
    match given {
        None => Piece::Null,
        Some((offset, len)) => Piece::Slice(offset, len),
    }
}

/// What a scan reads from.
pub fn sources(given: &ScanSources) -> Piece<'_>
    ensures { piece_data result ≡ sources_data given.now }
{
    match given {
        ScanSources::Paths(paths) => Piece::Paths(paths.as_slice()),
        ScanSources::Buffers(numbers) => Piece::Buffers(numbers.as_slice()),
    }
}
