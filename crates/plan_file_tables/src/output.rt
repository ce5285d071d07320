//! What is put out of the columns of files where names are asked: in the order of the files or as they are asked, but the paths last.
ghost use Rattle.std.specs.Prelude.{◌≡◌, IfOk};
ghost use Rattle.plan_core.specs.Names.{AreDistinct};
ghost use Rattle.plan_file_scan.specs.Left.{left_output as left_output_of};
ghost use Rattle.plan_frame.specs.Reshaped.{columns_at as columns_named, type_or as has_type_or};
ghost use Rattle.plan_scan.specs.Stats.{named_among};

use crate::names::path_last;
use plan_core::{DataType, Names, PlSmallStr, Schema, TryClone};
use std::alloc::{AllocError, Global};

/// The columns that are asked, in their own order.
fn asked_among(alloc: Global, asked: &Names, file: &Schema) -> Result<Schema, AllocError>
    ensures { IfOk result (λ columns. columns ≡ named_among asked.now file.now) }
{
    let mut columns = Schema::new(alloc);
    for (name, dtype) in file.iter() {
        if asked.contains(name) {
            columns.with_column(PlSmallStr::new(alloc, name)?, *dtype)?;
        }
    }
    Ok(columns)
}

/// The type of a column, that of whole numbers where there is none.
fn type_or(file: &Schema, name: &str) -> DataType
    ensures { result ≡ has_type_or file.now name.now }
{
    file.get(name).copied().unwrap_or(DataType::Int64)
}

/// The columns of names that come once, in order.
fn columns_at(alloc: Global, file: &Schema, names: &[PlSmallStr]) -> Result<Schema, AllocError>
    requires { AreDistinct names.now }
    ensures { IfOk result (λ columns. columns ≡ columns_named file.now names.now) }
{
    let mut columns = Schema::new(alloc);
    for name in names {
        let dtype = type_or(file, name.as_str());
        columns.with_column(name.try_clone(alloc)?, dtype)?;
    }
    Ok(columns)
}

/// What is put out where these names are asked: in the order of the files or as they are asked, but the paths last.
#[tactic(auto, using(crate::proofs::OutputLemmas::last_once))]
pub(crate) fn left_output(
    alloc: Global,
    in_order: bool,
    path: &Option<PlSmallStr>,
    asked: &Names,
    listed: &[PlSmallStr],
    file: &Schema,
) -> Result<Schema, AllocError>
    requires listed { listed.now ≡ asked.now }
    requires once { AreDistinct listed.now }
    ensures { IfOk result (λ columns. columns ≡ left_output_of in_order path.now asked.now file.now) }
{
    if in_order {
        return asked_among(alloc, asked, file);
    }
    columns_at(alloc, file, path_last(alloc, path, listed)?.as_slice())
}
