//! Whether tables fit a plan.
ghost use Rattle.std.specs.Prelude.{◌≡◌, ◌↔◌, List, [], ◌∷◌, IfSome, IsTrue};
ghost use Rattle.std.specs.List.{AllByRecursion};
ghost use Rattle.plan_tree.specs.Stands.{Trees, StandsOnce};
ghost use Rattle.plan_expr.specs.declared.aexpr.AExpr.{AExpr};
ghost use Rattle.plan_ir.specs.declared.ir.IR.{IR as IRType};
ghost use Rattle.plan_scan.specs.Sources.{source_of, sources_of};
ghost use Rattle.plan_ir.specs.Parts.{IsPlan, plan_shape};
ghost use Rattle.plan_ir.specs.Plans.{bare, op_at, plans_at};
ghost use Rattle.plan_meaning.specs.Contents.{Fits, FitsAll, FitsAt};
ghost use Rattle.plan_meaning.specs.PlanAt.{plan_at};
ghost use Rattle.plan_meaning.specs.Checks.{is_column};
ghost use Rattle.plan_meaning.specs.Typing.{columns_or};
ghost use Rattle.plan_table.specs.Tables.{IsTable, table_at, types_of};
ghost use Rattle.plan_table.specs.declared.source_key.SourceKey.TheVariants.{Frame as frame_key};
ghost use Rattle.plan_fit.specs.Fitting.{AreFormed, HasColumns, HasOwn, IsMet, TablesFit, needs_by, source_needs};
ghost use Rattle.plan_fit.specs.Sources.{contents_of, key_of};

use crate::inputs::{input_at, input_count};
use crate::sources::table_of;
use plan_core::{Arena, DataType, Node, Schema};
use plan_ir::{FunctionIR, IR, ScanSources};
use plan_scan::ScanSourceRef;
use plan_table::{SourceKey, Table, Tables};

/// Whether a table has a column of this name and type.
fn has_column(table: &Table, name: &str, dtype: DataType) -> bool
    ensures { result ≡ is_column (types_of table.now.columns) (name.now, dtype) }
{
    match table.columns.get(name) {
        Some(column) => column.dtype == dtype,
        None => false,
    }
}

/// Whether a table has each of these columns, of its type, among others.
fn has_columns(table: &Table, columns: &Schema) -> bool
    ensures { IsTrue result ↔ HasColumns columns.now table.now }
{
    for (name, dtype) in columns.iter() {
        if !has_column(table, name, *dtype) {
            return false;
        }
    }
    true
}

/// Whether a table has the columns that a reader finds, if it is known what it finds.
fn has_file(table: &Table, columns: &Option<Schema>) -> bool
    ensures { IsTrue result ↔ HasColumns (columns_or columns.now []) table.now }
{
    match columns {
        Some(columns) => has_columns(table, columns),
        None => true,
    }
}

/// Whether a source has a table with the columns that a reader finds.
fn source_fits(source: ScanSourceRef<'_>, columns: &Option<Schema>, tables: &Tables) -> bool
    ensures met { IsTrue result ↔ IsMet tables.now (key_of (source_of source.entry), columns_or columns.now []) }
    ensures formed { IfSome (table_at tables.now (key_of (source_of source.entry))) IsTable }
{
    match table_of(source, tables) {
        Some(table) => has_file(table, columns),
        None => false,
    }
}

/// Whether two sources are the same.
fn is_same(left: ScanSourceRef<'_>, right: ScanSourceRef<'_>) -> bool
    ensures { IsTrue result → source_of left.entry ≡ source_of right.entry }
{
    match (left, right) {
        (ScanSourceRef::Path(left), ScanSourceRef::Path(right)) => left.as_str() == right.as_str(),
        (ScanSourceRef::Buffer(left), ScanSourceRef::Buffer(right)) => left == right,
        _ => false,
    }
}

/// Whether a source has a table with the columns that a reader finds, where the one before it has one. What is the same as
/// that is not looked at again.
fn next_fits(
    before: Option<ScanSourceRef<'_>>,
    source: ScanSourceRef<'_>,
    columns: &Option<Schema>,
    tables: &Tables,
) -> bool
    requires { IfSome before (λ other. HasOwn tables.now (columns_or columns.now []) (source_of other)) }
    ensures met { IsTrue result ↔ IsMet tables.now (key_of (source_of source.entry), columns_or columns.now []) }
    ensures formed { IsTrue result → IfSome (table_at tables.now (key_of (source_of source.entry))) IsTable }
{
    if let Some(other) = before {
        if is_same(other, source) {
            return true;
        }
    }
    source_fits(source, columns, tables)
}

/// Whether each source has a table with the columns that a reader finds.
fn sources_fit(sources: &ScanSources, columns: &Option<Schema>, tables: &Tables) -> bool
    ensures met { IsTrue result ↔ AllByRecursion (IsMet tables.now) (source_needs (sources_of sources.now) (columns_or columns.now [])) }
    ensures formed { IsTrue result → AreFormed tables.now (source_needs (sources_of sources.now) (columns_or columns.now [])) }
{
    let mut before = None;
    for source in sources.iter() {
        if !next_fits(before, source, columns, tables) {
            return false;
        }
        before = Some(source);
    }
    true
}

/// Whether the frame of a number has a table with these columns.
fn frame_fits(number: u32, schema: &Schema, tables: &Tables) -> bool
    ensures met { IsTrue result ↔ IsMet tables.now (frame_key number, schema.now) }
    ensures formed { IfSome (table_at tables.now (frame_key number)) IsTable }
{
    match tables.get(&SourceKey::Frame(number)) {
        Some(table) => has_columns(table, schema),
        None => false,
    }
}

/// Whether the sources that a node reads have tables with the columns that it needs.
fn is_met(node: &IR, tables: &Tables) -> bool
    ensures met { (ex : List AExpr) → IsTrue result ↔ AllByRecursion (IsMet tables.now) (needs_by (op_at ex node.now)) }
    ensures formed { (ex : List AExpr) → IsTrue result → AreFormed tables.now (needs_by (op_at ex node.now)) }
{
    match node {
        IR::Scan {
            sources,
            file_info,
            ..
        } => sources_fit(sources, &file_info.reader_schema, tables),
        IR::MapFunction {
            function: FunctionIR::FastCount { sources, .. },
            ..
        } => sources_fit(sources, &None, tables),
        IR::DataFrameScan {
            df: Some(number),
            schema,
            ..
        } => frame_fits(*number, schema, tables),
        _ => true,
    }
}

/// Whether the sources that the plan at a number reads have tables with the columns that it needs.
fn are_met(node: Node, lp: &Arena<IR>, tables: &Tables) -> bool
    requires { (t : Trees IRType) × StandsOnce plan_shape lp.now (node ∷ []) t }
    ensures met { (ex : List AExpr) → IsPlan lp.now ex node → IsTrue result ↔ TablesFit tables.now (plans_at lp.now ex (node ∷ [])) }
    ensures frames { (ex : List AExpr) → IsPlan lp.now ex node → IsTrue result → FitsAll (contents_of tables.now) (bare (plans_at lp.now ex (node ∷ []))) }
{
    let entry = lp.get(node);
    if !is_met(entry, tables) {
        return false;
    }
    for place in 0..input_count(entry) {
        if !are_met(input_at(entry, place), lp, tables) {
            return false;
        }
    }
    true
}

/// Whether tables fit the plan at `root`: each source of a scan has a table with the columns that its reader finds,
/// each frame that is handed in by number one with the columns of its scan, of their types, and each source whose rows are counted a
/// table. Further columns and tables may
/// be there. It takes no memory.
pub fn fits(root: Node, lp: &Arena<IR>, tables: &Tables) -> bool
    requires { (ex : List AExpr) × IsPlan lp.now ex root }
    ensures fits { (ex : List AExpr) → IsPlan lp.now ex root → IsTrue result ↔ TablesFit tables.now (plans_at lp.now ex (root ∷ [])) }
    ensures frames { (ex : List AExpr) → IsPlan lp.now ex root → IsTrue result → Fits (contents_of tables.now) (plan_at lp.now ex root) }
{
    are_met(root, lp, tables)
}
