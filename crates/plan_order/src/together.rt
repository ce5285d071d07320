//! Scans as one over all their sources in order.
ghost use Rattle.std.specs.Prelude.{◌≡◌, ◌++◌, IfOk, OnOk, map};
ghost use Rattle.std.specs.List.{list_all};
ghost use Rattle.plan_order_laws.specs.Counted.{same_kind as are_same_kind, together as as_one};
ghost use Rattle.plan_order.specs.Counts.{numbers_in, paths_in};

use plan_core::{Items, PlSmallStr, TryClone};
use plan_scan::{FileScan, ScanSources};
use std::alloc::{AllocError, Global};

/// Whether two formats are one.
fn same_kind(kind: FileScan, other: FileScan) -> bool
    ensures { result ≡ are_same_kind kind other }
{
    kind == other
}

/// Whether all scans are of one format.
fn are_of_kind(found: &[(&ScanSources, FileScan)], kind: FileScan) -> bool
    ensures { result ≡ list_all (λ q. are_same_kind kind q.1) found.now }
{
    found.iter().all(|(_, other)| same_kind(kind, *other))
}

/// Adds paths, last. Refuses for want of memory alone.
fn add_paths(
    alloc: Global,
    paths: &mut Items<PlSmallStr>,
    more: &[PlSmallStr],
) -> Result<(), AllocError>
    ensures { OnOk result (paths.new ≡ paths.old ++ more.now) }
{
    for path in more {
        paths.push(path.try_clone(alloc)?)?;
    }
    Ok(())
}

/// Adds the numbers of buffers, last. Refuses for want of memory alone.
fn add_numbers(numbers: &mut Items<u32>, more: &[u32]) -> Result<(), AllocError>
    ensures { OnOk result (numbers.new ≡ numbers.old ++ more.now) }
{
    for number in more {
        numbers.push(*number)?;
    }
    Ok(())
}

/// The paths of scans, in order; None where one has buffers. Refuses for want of memory alone.
fn all_paths(
    alloc: Global,
    found: &[(&ScanSources, FileScan)],
) -> Result<Option<Items<PlSmallStr>>, AllocError>
    ensures { IfOk result (λ made. made ≡ paths_in (map (λ q. (q.0.now, q.1)) found.now)) }
{
    let mut paths = Items::new(alloc);
    for (sources, _) in found {
        match sources {
            ScanSources::Paths(more) => add_paths(alloc, &mut paths, more.as_slice())?,
            ScanSources::Buffers(_) => return Ok(None),
        }
    }
    Ok(Some(paths))
}

/// The numbers of the buffers of scans, in order; None where one has paths. Refuses for want of memory alone.
fn all_numbers(
    alloc: Global,
    found: &[(&ScanSources, FileScan)],
) -> Result<Option<Items<u32>>, AllocError>
    ensures { IfOk result (λ made. made ≡ numbers_in (map (λ q. (q.0.now, q.1)) found.now)) }
{
    let mut numbers = Items::new(alloc);
    for (sources, _) in found {
        match sources {
            ScanSources::Buffers(more) => add_numbers(&mut numbers, more.as_slice())?,
            ScanSources::Paths(_) => return Ok(None),
        }
    }
    Ok(Some(numbers))
}

/// Scans as one over all their sources in order, if they are of one format, and all sources are paths or all are buffers; None where
/// there is no scan. Refuses for want of memory alone.
pub fn together(
    alloc: Global,
    found: &[(&ScanSources, FileScan)],
) -> Result<Option<(ScanSources, FileScan)>, AllocError>
    ensures { IfOk result (λ made. made ≡ as_one (map (λ q. (q.0.now, q.1)) found.now)) }
{
    let Some((_, kind)) = found.first() else {
        return Ok(None);
    };
    if !are_of_kind(found, *kind) {
        return Ok(None);
    }
    if let Some(paths) = all_paths(alloc, found)? {
        return Ok(Some((ScanSources::Paths(paths), *kind)));
    }
    match all_numbers(alloc, found)? {
        Some(numbers) => Ok(Some((ScanSources::Buffers(numbers), *kind))),
        None => Ok(None),
    }
}
