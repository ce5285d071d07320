//! The table of a join along pairs of rows.
ghost use Rattle.std.specs.Prelude.{◌≡◌, ◌++◌, ◌∷◌, [], ℕ, false, map, option_and_then, IfOk, OnOk};
ghost use Rattle.plan_core.specs.Columns.{HasDistinctNames, names_of};
ghost use Rattle.plan_core.specs.Names.{has};
ghost use Rattle.plan_frame.specs.Frames.{column_or, row};
ghost use Rattle.plan_frame.specs.Values.{null};
ghost use Rattle.plan_join.specs.Naming.{join_columns, key_columns, left_rest as rest_of_left, right_name as named_right, right_rest as rest_of_right, with_right, LieIn};
ghost use Rattle.plan_join_eval.specs.Along.{filled_column, filling, left_column, place_in, right_column, slot, value_along};
ghost use Rattle.plan_join_eval.specs.Fills.{ArePartners};
ghost use Rattle.plan_join.specs.Joined.{joined as joined_of};
ghost use Rattle.plan_join.specs.Sides.{filler};
ghost use Rattle.plan_table.specs.Tables.{types_of};
ghost use Rattle.plan_value.specs.Shown.{columns_shown, column_shown, frame_of, schema_of, value_of, values_of};

use crate::fills::fillers;
use plan_core::{Arena, Items, PlSmallStr, Schema};
use plan_expr::{AExpr, ExprIR};
use plan_join::{RowPair, left_rest, right_name, right_rest};
use plan_options::JoinArgs;
use plan_table::{AnyValue, Column, Columns, Table};
use plan_value::{typed, value_in};
use std::alloc::{AllocError, Global};

/// The row of a side in a pair, of the right one or of the left, if there is one.
fn place(of_right: bool, pair: &RowPair) -> Option<usize>
    ensures { result ≡ place_in of_right pair.now }
{
    if of_right { pair.right } else { pair.left }
}

/// The value in a row of one side, or that in the row of the other where it is absent; null where there is none.
fn value(
    alloc: Global,
    of_right: bool,
    values: &[AnyValue],
    others: &[AnyValue],
    pair: &RowPair,
) -> Result<AnyValue, AllocError>
    ensures { IfOk result (λ v. value_of v ≡ value_along of_right (values_of values.now) (values_of others.now) pair.now) }
{
    match place(of_right, pair) {
        Some(row) => value_in(alloc, values, row),
        None => match place(!of_right, pair) {
            Some(row) => value_in(alloc, others, row),
            None => Ok(AnyValue::Null),
        },
    }
}

/// The values of a column of a side along pairs: those in its rows, and where its row is absent those of a column of the
/// other side.
pub fn along(
    alloc: Global,
    of_right: bool,
    values: &[AnyValue],
    others: &[AnyValue],
    pairs: &[RowPair],
) -> Result<Items<AnyValue>, AllocError>
    ensures { IfOk result (λ vs. values_of vs ≡ map (value_along of_right (values_of values.now) (values_of others.now)) pairs.now) }
{
    let mut own = Items::new(alloc);
    for pair in pairs {
        own.push(value(alloc, of_right, values, others, pair)?)?;
    }
    Ok(own)
}

/// The values of the column of a name, from the first row on; none where there is no such column.
pub fn column_values<'a>(table: &'a Table, name: &str) -> &'a [AnyValue]
    ensures { (i : ℕ) → row (values_of result.now) i ≡ row (column_or (frame_of table.now) name.now) i }
{
    match table.columns.get(name) {
        Some(column) => column.values.as_slice(),
        None => &[],
    }
}

/// The values of the right column that fills a left one, of which its place is told; none where none does.
fn filler_values<'a>(
    right: &'a Table,
    fills: &[Option<usize>],
    place: Option<usize>,
) -> &'a [AnyValue]
    ensures { values_of result.now ≡ filling (frame_of right.now) (option_and_then (slot fills.now) place) }
{
    let Some(place) = place else {
        return &[];
    };
    let Some(Some(other)) = fills.get(place) else {
        return &[];
    };
    match right.columns.get_at_index(*other) {
        Some(column) => column.values.as_slice(),
        None => &[],
    }
}

/// Puts a column behind others, none of which is called like it.
pub fn push_column(columns: &mut Columns, column: Column) -> Result<(), AllocError>
    requires { has (names_of (types_of columns.old)) column.name ≡ false }
    ensures shown { OnOk result (columns_shown columns.new ≡ columns_shown columns.old ++ column_shown column ∷ []) }
    ensures types { OnOk result (types_of columns.new ≡ types_of columns.old ++ (column.name, column.dtype) ∷ []) }
{
    columns.with_column(column)
}

/// The left columns that a join puts out, along pairs of rows.
fn with_lefts(
    alloc: Global,
    left: &Table,
    right: &Table,
    lefts: &Schema,
    places: &Schema,
    fills: &[Option<usize>],
    pairs: &[RowPair],
) -> Result<Columns, AllocError>
    ensures shown { IfOk result (λ made. columns_shown made ≡ map (left_column places.now fills.now (frame_of left.now) (frame_of right.now) pairs.now) (names_of lefts.now)) }
    ensures types { IfOk result (λ made. types_of made ≡ lefts.now) }
{
    let mut columns = Columns::new(alloc);
    for (name, dtype) in lefts.iter() {
        let own = column_values(left, name);
        let others = filler_values(right, fills, places.index_of(name));
        let column = Column {
            name: PlSmallStr::new(alloc, name)?,
            dtype: *dtype,
            values: along(alloc, false, own, others, pairs)?,
        };
        push_column(&mut columns, column)?;
    }
    Ok(columns)
}

/// Columns with the right ones that a join puts out behind them, along pairs of rows, each under the name that it gets.
fn with_rights(
    alloc: Global,
    columns: Columns,
    suffix: &str,
    lefts: &Schema,
    right: &Table,
    rights: &Schema,
    pairs: &[RowPair],
) -> Result<Columns, AllocError>
    requires types { types_of columns ≡ lefts.now }
    requires distinct { HasDistinctNames (with_right suffix.now lefts.now rights.now) }
    ensures shown { IfOk result (λ made. columns_shown made ≡ columns_shown columns ++ map (right_column (named_right suffix.now (names_of lefts.now)) (frame_of right.now) pairs.now) (names_of rights.now)) }
    ensures types { IfOk result (λ made. types_of made ≡ with_right suffix.now lefts.now rights.now) }
{
    let mut columns = columns;
    for (name, dtype) in rights.iter() {
        let column = Column {
            name: right_name(alloc, suffix, lefts, name)?,
            dtype: *dtype,
            values: along(alloc, true, column_values(right, name), &[], pairs)?,
        };
        push_column(&mut columns, column)?;
    }
    Ok(columns)
}

/// The left columns that a join puts out, with their types.
pub fn lefts_of(
    alloc: Global,
    args: &JoinArgs,
    left_on: &[ExprIR],
    left: &Table,
    ex: &Arena<AExpr>,
) -> Result<Schema, AllocError>
    requires { LieIn ex.now left_on.now }
    ensures { IfOk result (λ columns. columns ≡ rest_of_left args.now (key_columns ex.now left_on.now) (schema_of left.now)) }
{
    let types = typed(alloc, &left.columns)?;
    left_rest(alloc, args, left_on, &types, ex)
}

/// The right columns that a join puts out, with their types, under their own names.
pub fn rights_of(
    alloc: Global,
    args: &JoinArgs,
    right_on: &[ExprIR],
    right: &Table,
    ex: &Arena<AExpr>,
) -> Result<Schema, AllocError>
    requires { LieIn ex.now right_on.now }
    ensures { IfOk result (λ columns. columns ≡ rest_of_right args.now (key_columns ex.now right_on.now) (schema_of right.now)) }
{
    let types = typed(alloc, &right.columns)?;
    right_rest(alloc, args, right_on, &types, ex)
}

/// For each left column the place of the column of the right table that fills it, if one does.
fn fills_from(
    alloc: Global,
    args: &JoinArgs,
    left_on: &[ExprIR],
    right_on: &[ExprIR],
    places: &Schema,
    right: &Table,
    ex: &Arena<AExpr>,
) -> Result<Vec<Option<usize>>, AllocError>
    requires left_keys { LieIn ex.now left_on.now }
    requires right_keys { LieIn ex.now right_on.now }
    requires distinct { HasDistinctNames places.now }
    ensures fills { IfOk result (λ fills. ArePartners places.now (schema_of right.now) (filler args.now (key_columns ex.now left_on.now) (key_columns ex.now right_on.now)) fills.items) }
    ensures distinct { IfOk result (λ _. HasDistinctNames (schema_of right.now)) }
{
    let types = typed(alloc, &right.columns)?;
    fillers(alloc, args, left_on, right_on, places, &types, ex)
}

/// The left columns that a join puts out, along pairs of rows: null where the left row is absent, but for a key that a right
/// one fills.
fn filled_lefts(
    alloc: Global,
    left: &Table,
    right: &Table,
    args: &JoinArgs,
    left_on: &[ExprIR],
    right_on: &[ExprIR],
    lefts: &Schema,
    ex: &Arena<AExpr>,
    pairs: &[RowPair],
) -> Result<Columns, AllocError>
    requires left_keys { LieIn ex.now left_on.now }
    requires right_keys { LieIn ex.now right_on.now }
    requires lefts { lefts.now ≡ rest_of_left args.now (key_columns ex.now left_on.now) (schema_of left.now) }
    ensures shown { IfOk result (λ made. columns_shown made ≡ map (filled_column (filler args.now (key_columns ex.now left_on.now) (key_columns ex.now right_on.now)) (frame_of left.now) (frame_of right.now) pairs.now) (names_of lefts.now)) }
    ensures types { IfOk result (λ made. types_of made ≡ lefts.now) }
{
    let places = typed(alloc, &left.columns)?;
    let fills = fills_from(alloc, args, left_on, right_on, &places, right, ex)?;
    with_lefts(alloc, left, right, lefts, &places, &fills, pairs)
}

/// The table of a join of two along pairs of their rows: the columns that the join puts out, in order, null where the row of
/// a side is absent, but for a left key that a right one fills. Refuses for want of memory alone.
pub fn joined_table(
    alloc: Global,
    left: &Table,
    right: &Table,
    args: &JoinArgs,
    left_on: &[ExprIR],
    right_on: &[ExprIR],
    ex: &Arena<AExpr>,
    pairs: &[RowPair],
) -> Result<Table, AllocError>
    requires left_keys { LieIn ex.now left_on.now }
    requires right_keys { LieIn ex.now right_on.now }
    requires distinct { HasDistinctNames (join_columns args.now (key_columns ex.now left_on.now) (key_columns ex.now right_on.now) (schema_of left.now) (schema_of right.now)) }
    ensures frame { IfOk result (λ t. frame_of t ≡ joined_of args.now (key_columns ex.now left_on.now) (key_columns ex.now right_on.now) pairs.now (frame_of left.now) (frame_of right.now)) }
    ensures types { IfOk result (λ t. schema_of t ≡ join_columns args.now (key_columns ex.now left_on.now) (key_columns ex.now right_on.now) (schema_of left.now) (schema_of right.now)) }
{
    let lefts = lefts_of(alloc, args, left_on, left, ex)?;
    let rights = rights_of(alloc, args, right_on, right, ex)?;
    let columns = filled_lefts(
        alloc, left, right, args, left_on, right_on, &lefts, ex, pairs,
    )?;
    Ok(Table {
        height: pairs.len(),
        columns: with_rights(alloc, columns, args.suffix(), &lefts, right, &rights, pairs)?,
    })
}
