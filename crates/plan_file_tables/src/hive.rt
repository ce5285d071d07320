//! The asked hive columns of each source.
ghost use Rattle.std.specs.Prelude.{◌≡◌, map, IfOk};
ghost use Rattle.std.specs.List.{filter as only_where};
ghost use Rattle.plan_core.specs.Columns.{names_of};
ghost use Rattle.plan_core.specs.Names.{has};
ghost use Rattle.plan_file_scan.specs.Left.{left_part as left_of, left_parts as all_left};

use plan_core::{Items, Names, PlSmallStr, Schema, TryClone};
use plan_scan::HivePartitions;
use std::alloc::{AllocError, Global};

/// The names of the columns that are asked, in order.
fn asked_names(
    alloc: Global,
    asked: &Names,
    columns: &Schema,
) -> Result<Items<PlSmallStr>, AllocError>
    ensures { IfOk result (λ names. names ≡ only_where (has asked.now) (names_of columns.now)) }
{
    let mut names = Items::new(alloc);
    for (name, _) in columns.iter() {
        if asked.contains(name) {
            names.push(PlSmallStr::new(alloc, name)?)?;
        }
    }
    Ok(names)
}

/// The asked columns of a part.
#[tactic(auto, using(crate::proofs::LeftPartLemmas::part_kept))]
fn left_part(
    alloc: Global,
    asked: &Names,
    part: &HivePartitions,
) -> Result<HivePartitions, AllocError>
    ensures { IfOk result (λ left. left ≡ left_of asked.now part.now) }
{
    let own = asked_names(alloc, asked, part.get_statistics().schema())?;
    let mut left = part.try_clone(alloc)?;
    let (schema, places) = left.get_projection_schema_and_indices(alloc, own.as_slice())?;
    left.apply_projection(alloc, schema, places.as_slice())?;
    Ok(left)
}

/// The asked columns of each of some parts.
fn each_left(
    alloc: Global,
    asked: &Names,
    parts: &[HivePartitions],
) -> Result<Items<HivePartitions>, AllocError>
    ensures { IfOk result (λ left. left ≡ map (left_of asked.now) parts.now) }
{
    let mut left = Items::new(alloc);
    for part in parts {
        left.push(left_part(alloc, asked, part)?)?;
    }
    Ok(left)
}

/// The asked columns of each part, where parts are given.
pub(crate) fn left_parts(
    alloc: Global,
    asked: &Names,
    hive: &Option<Items<HivePartitions>>,
) -> Result<Option<Items<HivePartitions>>, AllocError>
    ensures { IfOk result (λ left. left ≡ all_left asked.now hive.now) }
{
    match hive {
        None => Ok(None),
        Some(parts) => Ok(Some(each_left(alloc, asked, parts.as_slice())?)),
    }
}
