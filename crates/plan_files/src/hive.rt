//! Which of the columns that a reader finds are hive columns.
ghost use Rattle.std.specs.Prelude.{◌≡◌, ◌&&◌, [], true, IfOk, option_copied, unwrap_or};
ghost use Rattle.std.specs.List.{list_all};
ghost use Rattle.plan_core.specs.Columns.{names_of, same_columns};
ghost use Rattle.plan_core.specs.Names.{has};
ghost use Rattle.plan_scan.specs.Stats.{Stats, columns_of};
ghost use Rattle.plan_files.specs.FileColumns.{hive_columns, plain_columns};
ghost use Rattle.plan_files.specs.HiveParts.{are_alike, are_typed};

use plan_core::{Items, PlSmallStr, Schema};
use plan_scan::HivePartitions;
use std::alloc::{AllocError, Global};

/// The hive columns of sources, in order: those of the first source. None where no parts are given, or there are none.
pub fn hive_schema(hive: &Option<Items<HivePartitions>>) -> Option<&Schema>
    ensures { unwrap_or (option_copied result) [] ≡ hive_columns hive.now }
{
    match hive {
        None => None,
        Some(parts) => match parts.as_slice().first() {
            None => None,
            Some(part) => Some(part.get_statistics().schema()),
        },
    }
}

/// Whether a name is that of a hive column.
#[tactic(auto, using(crate::proofs::FileLemmas::known_there, crate::proofs::FileLemmas::known_none))]
pub fn is_hive(hive: &Option<Items<HivePartitions>>, name: &str) -> bool
    ensures { result ≡ has (names_of (hive_columns hive.now)) name.now }
{
    match hive_schema(hive) {
        None => false,
        Some(columns) => match columns.get(name) {
            None => false,
            Some(_) => true,
        },
    }
}

/// The names of the columns that a reader finds but for hive columns, in order. It refuses only where memory is short.
pub fn plain_names(
    alloc: Global,
    reader: &Schema,
    hive: &Option<Items<HivePartitions>>,
) -> Result<Items<PlSmallStr>, AllocError>
    ensures { IfOk result (λ names. names ≡ names_of (plain_columns reader.now (hive_columns hive.now))) }
{
    let mut names = Items::new(alloc);
    for (name, _) in reader.iter() {
        if !is_hive(hive, name) {
            names.push(PlSmallStr::new(alloc, name)?)?;
        }
    }
    Ok(names)
}

/// Whether the values of a part are null or of their columns' types: they are, by the law of hive parts, so that there is nothing to
/// compute.
#[tactic(auto, using(crate::proofs::HiveLemmas::part_typed))]
fn values_typed(part: &HivePartitions)
    ensures { are_typed part.now ≡ true }
{
    let _values = part.get_statistics().column_stats();
}

/// Whether some parts have these columns, in names, order and types.
fn all_alike(columns: &Schema, parts: &[HivePartitions]) -> bool
    ensures { result ≡ list_all (λ (part : Stats). same_columns columns.now (columns_of part) && are_typed part) parts.now }
{
    for part in parts {
        values_typed(part);
        if *columns != *part.get_statistics().schema() {
            return false;
        }
    }
    true
}

/// Whether the hive parts of a scan have the columns of the first, in names, order and types; so where no parts are given, too.
pub fn parts_alike(hive: &Option<Items<HivePartitions>>) -> bool
    ensures { result ≡ are_alike hive.now }
{
    match hive {
        None => true,
        Some(parts) => match parts.as_slice().first() {
            None => true,
            Some(first) => all_alike(first.get_statistics().schema(), parts.as_slice()),
        },
    }
}
