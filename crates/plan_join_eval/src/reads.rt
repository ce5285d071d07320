//! The columns that a condition reads of those that a join puts out, and their table along pairs of rows.
ghost use Rattle.std.specs.Prelude.{◌≡◌, ◌++◌, [], List, map, IfOk, OnOk};
ghost use Rattle.std.specs.List.{filter as only_where};
ghost use Rattle.plan_core.specs.Columns.{HasDistinctNames, names_of};
ghost use Rattle.plan_core.specs.Names.{has, with_names};
ghost use Rattle.plan_expr.specs.Exprs.{expr_at};
ghost use Rattle.plan_expr.specs.Leaves.{leaves};
ghost use Rattle.plan_expr.specs.Operands.{IsExpr};
ghost use Rattle.plan_join.specs.Naming.{join_columns, right_name as named_right};
ghost use Rattle.plan_join_eval.specs.Along.{right_column};
ghost use Rattle.plan_join_eval.specs.Reads.{is_named, is_read, left_along, read_column as column_read, read_frame, read_type};
ghost use Rattle.plan_join.specs.Joined.{joined as joined_of};
ghost use Rattle.plan_join.specs.declared.pairs.RowPair.{RowPair as PairType};
ghost use Rattle.plan_value.specs.Shown.{column_shown, frame_of, schema_of};

use crate::joined::{along, column_values, lefts_of, push_column, rights_of};
use plan_core::{Arena, DataType, Items, Names, Node, PlSmallStr, Schema, TryClone};
use plan_expr::{AExpr, aexpr_to_leaf_names};
use plan_join::{RowPair, right_name};
use plan_options::JoinArgs;
use plan_table::{AnyValue, Column, Columns, Table};
use std::alloc::{AllocError, Global};

/// A column of a side that is read: the name under which the join puts it out, its type, whether it is of the right side, and
/// its values there.
#[derive(Drop)]
pub struct Read<'a> {
    name: PlSmallStr,
    dtype: DataType,
    of_right: bool,
    values: &'a [AnyValue],
}

/// The names of a list, each once.
fn set_of(alloc: Global, names: &[PlSmallStr]) -> Result<Names, AllocError>
    ensures { IfOk result (λ set. set ≡ with_names [] names.now) }
{
    let mut set = Names::new(alloc);
    for name in names {
        let _ = set.add(name.as_str())?;
    }
    Ok(set)
}

/// The names that an expression reads, each once.
fn names_read(alloc: Global, node: Node, ex: &Arena<AExpr>) -> Result<Names, AllocError>
    requires { IsExpr ex.now node }
    ensures { IfOk result (λ names. names ≡ with_names [] (leaves (expr_at ex.now node))) }
{
    let names = aexpr_to_leaf_names(alloc, node, ex)?;
    set_of(alloc, names.as_slice())
}

/// Adds the left columns that have one of some names.
fn add_lefts<'a>(
    alloc: Global,
    reads: &mut Items<Read<'a>>,
    left: &'a Table,
    lefts: &Schema,
    names: &Names,
) -> Result<(), AllocError>
    ensures columns { OnOk result ((ps : List PairType) → map (column_read ps) reads.new ≡ map (column_read ps) reads.old ++ only_where (is_read names.now) (map (left_along (frame_of left.now) ps) (names_of lefts.now))) }
    ensures types { OnOk result (map read_type reads.new ≡ map read_type reads.old ++ only_where (is_named names.now) lefts.now) }
{
    for (name, dtype) in lefts.iter() {
        if names.contains(name) {
            reads.push(Read {
                name: PlSmallStr::new(alloc, name)?,
                dtype: *dtype,
                of_right: false,
                values: column_values(left, name),
            })?;
        }
    }
    Ok(())
}

/// Adds the right columns that are put out under one of some names.
fn add_rights<'a>(
    alloc: Global,
    reads: &mut Items<Read<'a>>,
    suffix: &str,
    lefts: &Schema,
    right: &'a Table,
    rights: &Schema,
    names: &Names,
) -> Result<(), AllocError>
    ensures columns { OnOk result ((ps : List PairType) → map (column_read ps) reads.new ≡ map (column_read ps) reads.old ++ only_where (is_read names.now) (map (right_column (named_right suffix.now (names_of lefts.now)) (frame_of right.now) ps) (names_of rights.now))) }
    ensures types { OnOk result (map read_type reads.new ≡ map read_type reads.old ++ only_where (is_named names.now) (map (λ c. (named_right suffix.now (names_of lefts.now) c.0, c.1)) rights.now)) }
{
    for (own, dtype) in rights.iter() {
        let name = right_name(alloc, suffix, lefts, own)?;
        if names.contains(name.as_str()) {
            reads.push(Read {
                name,
                dtype: *dtype,
                of_right: true,
                values: column_values(right, own),
            })?;
        }
    }
    Ok(())
}

/// The columns that have one of some names, among left ones and right ones that a join puts out.
fn reads_among<'a>(
    alloc: Global,
    suffix: &str,
    left: &'a Table,
    lefts: &Schema,
    right: &'a Table,
    rights: &Schema,
    names: &Names,
) -> Result<Items<Read<'a>>, AllocError>
    ensures columns { IfOk result (λ reads. (ps : List PairType) → map (column_read ps) reads ≡ only_where (is_read names.now) (map (left_along (frame_of left.now) ps) (names_of lefts.now)) ++ only_where (is_read names.now) (map (right_column (named_right suffix.now (names_of lefts.now)) (frame_of right.now) ps) (names_of rights.now))) }
    ensures types { IfOk result (λ reads. map read_type reads ≡ only_where (is_named names.now) lefts.now ++ only_where (is_named names.now) (map (λ c. (named_right suffix.now (names_of lefts.now) c.0, c.1)) rights.now)) }
{
    let mut reads = Items::new(alloc);
    add_lefts(alloc, &mut reads, left, lefts, names)?;
    add_rights(alloc, &mut reads, suffix, lefts, right, rights, names)?;
    Ok(reads)
}

/// The columns that have one of some names, among those that a join without keys puts out, in order.
fn reads_named<'a>(
    alloc: Global,
    names: &Names,
    args: &JoinArgs,
    left: &'a Table,
    right: &'a Table,
    ex: &Arena<AExpr>,
) -> Result<Items<Read<'a>>, AllocError>
    requires distinct { HasDistinctNames (join_columns args.now [] [] (schema_of left.now) (schema_of right.now)) }
    ensures columns { IfOk result (λ reads. (ps : List PairType) → map (column_read ps) reads ≡ only_where (is_read names.now) (joined_of args.now [] [] ps (frame_of left.now) (frame_of right.now)).columns) }
    ensures distinct { IfOk result (λ reads. HasDistinctNames (map read_type reads)) }
{
    let lefts = lefts_of(alloc, args, &[], left, ex)?;
    let rights = rights_of(alloc, args, &[], right, ex)?;
    Ok(reads_among(alloc, args.suffix(), left, &lefts, right, &rights, names)?)
}

/// The columns that an expression reads of those that a join without keys puts out, in order.
pub fn reads<'a>(
    alloc: Global,
    node: Node,
    args: &JoinArgs,
    left: &'a Table,
    right: &'a Table,
    ex: &Arena<AExpr>,
) -> Result<Items<Read<'a>>, AllocError>
    requires stands { IsExpr ex.now node }
    requires distinct { HasDistinctNames (join_columns args.now [] [] (schema_of left.now) (schema_of right.now)) }
    ensures columns { IfOk result (λ reads. (ps : List PairType) → map (column_read ps) reads ≡ only_where (is_read (with_names [] (leaves (expr_at ex.now node)))) (joined_of args.now [] [] ps (frame_of left.now) (frame_of right.now)).columns) }
    ensures distinct { IfOk result (λ reads. HasDistinctNames (map read_type reads)) }
{
    let names = names_read(alloc, node, ex)?;
    Ok(reads_named(alloc, &names, args, left, right, ex)?)
}

/// A column that is read, along pairs of rows.
fn read_column(alloc: Global, read: &Read<'_>, pairs: &[RowPair]) -> Result<Column, AllocError>
    ensures shown { IfOk result (λ c. column_shown c ≡ column_read pairs.now read.now) }
    ensures typed { IfOk result (λ c. (c.name, c.dtype) ≡ read_type read.now) }
{
    Ok(Column {
        name: read.name.try_clone(alloc)?,
        dtype: read.dtype,
        values: along(alloc, read.of_right, read.values, &[], pairs)?,
    })
}

/// The table of the columns that are read, along pairs of rows.
pub fn read_table(alloc: Global, reads: &[Read<'_>], pairs: &[RowPair]) -> Result<Table, AllocError>
    requires { HasDistinctNames (map read_type reads.now) }
    ensures { IfOk result (λ t. frame_of t ≡ read_frame pairs.now reads.now) }
{
    let mut columns = Columns::new(alloc);
    for read in reads {
        push_column(&mut columns, read_column(alloc, read, pairs)?)?;
    }
    Ok(Table {
        height: pairs.len(),
        columns,
    })
}
