//! Names of columns: which of them are told of a scan, and lists of them.
ghost use Rattle.std.specs.Prelude.{◌≡◌, IfOk};
ghost use Rattle.std.specs.List.{list_all};
ghost use Rattle.plan_core.specs.Columns.{names_of};
ghost use Rattle.plan_core.specs.Names.{has, AreDistinct};
ghost use Rattle.plan_file_scan.specs.Left.{is_path as is_path_of, path_last as with_path_last};
ghost use Rattle.plan_files.specs.FileColumns.{row_columns};
ghost use Rattle.plan_files.specs.FileReads.{is_counted as is_counted_of};

use plan_core::{FileScanOptions, Items, Names, PlSmallStr, RowIndex, TryClone};
use std::alloc::{AllocError, Global};

/// The names as a list, in which each comes once.
pub(crate) fn listed(alloc: Global, names: &Names) -> Result<Items<PlSmallStr>, AllocError>
    ensures list { IfOk result (λ list. list ≡ names.now) }
    ensures once { AreDistinct names.now }
{
    let mut list = Items::new(alloc);
    for i in 0..names.len() {
        if let Some(name) = names.get_at_index(i) {
            list.push(PlSmallStr::new(alloc, name)?)?;
        }
    }
    Ok(list)
}

/// Whether a column numbers the rows.
fn is_row(row_index: &Option<RowIndex>, name: &str) -> bool
    ensures { result ≡ has (names_of (row_columns row_index.now)) name.now }
{
    match row_index {
        None => false,
        Some(row) => name == row.name.as_str(),
    }
}

/// Whether a column is the one with the paths.
pub(crate) fn is_path(path: &Option<PlSmallStr>, name: &str) -> bool
    ensures { result ≡ is_path_of path.now name.now }
{
    match path {
        None => false,
        Some(column) => name == column.as_str(),
    }
}

/// Whether a column numbers the rows, or has their paths.
pub(crate) fn is_counted(options: &FileScanOptions, name: &str) -> bool
    ensures { result ≡ is_counted_of options.now name.now }
{
    is_row(&options.row_index, name) || is_path(&options.include_file_paths, name)
}

/// Whether each of the names is that of a column that numbers the rows, or has their paths.
pub(crate) fn all_counted(options: &FileScanOptions, names: &[PlSmallStr]) -> bool
    ensures { result ≡ list_all (is_counted_of options.now) names.now }
{
    for name in names {
        if !is_counted(options, name.as_str()) {
            return false;
        }
    }
    true
}

/// The names, with that of the column with the paths last.
pub(crate) fn path_last(
    alloc: Global,
    path: &Option<PlSmallStr>,
    names: &[PlSmallStr],
) -> Result<Items<PlSmallStr>, AllocError>
    ensures { IfOk result (λ list. list ≡ with_path_last path.now names.now) }
{
    let mut list = Items::new(alloc);
    for name in names {
        if !is_path(path, name.as_str()) {
            list.push(name.try_clone(alloc)?)?;
        }
    }
    for name in names {
        if is_path(path, name.as_str()) {
            list.push(name.try_clone(alloc)?)?;
        }
    }
    Ok(list)
}
