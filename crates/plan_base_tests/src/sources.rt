//! Sources, and formats of files.
use plan_core::{FileScanOptions, Items, PlSmallStr, RowIndex, TryClone};
use plan_samples::names;
use plan_scan::{FileScan, ScanSourceRef, ScanSources};
use std::alloc::{AllocError, Global};

/// The sources of two paths.
fn paths(alloc: Global) -> Result<ScanSources, AllocError> {
    Ok(ScanSources::Paths(names(alloc, &["t", "u"])?))
}

/// The sources of two buffers.
fn buffers(alloc: Global) -> Result<ScanSources, AllocError> {
    let mut items = Items::new(alloc);
    items.push(4)?;
    items.push(5)?;
    Ok(ScanSources::Buffers(items))
}

/// What sources tell.
struct Told {
    /// Their name.
    id: &'static str,
    /// Their names, one after another.
    names: &'static str,
    /// How they are shown.
    shown: &'static str,
    /// Whether they are paths, are none, have a first path, have a third source, and give lists of paths, lent and copied.
    kinds: [bool; 6],
}

const PATHS: Told = Told {
    id: "t",
    names: "tu",
    shown: "paths: [\"t\", \"u\"]",
    kinds: [true, false, true, false, true, true],
};

const BUFFERS: Told = Told {
    id: "IN_MEMORY",
    names: "in-memin-mem",
    shown: "buffers: 2 in-memory-buffers",
    kinds: [false; 6],
};

/// The names of sources, one after another.
fn names_of(alloc: Global, sources: &ScanSources) -> Result<String, AllocError> {
    let mut names = String::new(alloc);
    for source in sources.iter() {
        names.push_str(source.to_include_path_name())?;
    }
    Ok(names)
}

/// How sources are shown.
fn shown(alloc: Global, sources: &ScanSources) -> Result<String, AllocError> {
    format!(in alloc; "{sources:?}")
}

/// The kinds of sources.
fn kinds(alloc: Global, sources: &ScanSources) -> Result<[bool; 6], AllocError> {
    let copied = sources.into_paths(alloc)?.is_some();
    Ok([
        sources.is_paths(),
        sources.is_empty(),
        sources.first_path().is_some(),
        sources.get(2).is_some(),
        sources.as_paths().is_some(),
        copied,
    ])
}

/// Whether sources have this name.
fn has_id(alloc: Global, sources: &ScanSources, id: &str) -> Result<bool, AllocError> {
    Ok(sources.id(alloc)?.as_str() == id)
}

/// Whether sources have these names, one after another.
fn has_names(alloc: Global, sources: &ScanSources, names: &str) -> Result<bool, AllocError> {
    Ok(names_of(alloc, sources)?.as_str() == names)
}

/// Whether sources are shown so.
fn is_shown(alloc: Global, sources: &ScanSources, wanted: &str) -> Result<bool, AllocError> {
    Ok(shown(alloc, sources)?.as_str() == wanted)
}

/// Whether sources are their copy.
fn is_copied(alloc: Global, sources: &ScanSources) -> Result<bool, AllocError> {
    Ok(sources.try_clone(alloc)? == *sources)
}

/// What of that sources tell, and whether they are their copy.
fn tell(alloc: Global, sources: &ScanSources, told: &Told) -> Result<[bool; 5], AllocError> {
    Ok([
        has_id(alloc, sources, told.id)?,
        has_names(alloc, sources, told.names)?,
        is_shown(alloc, sources, told.shown)?,
        kinds(alloc, sources)? == told.kinds,
        is_copied(alloc, sources)?,
    ])
}

/// Whether two paths tell what they should.
fn paths_are_told(alloc: Global) -> Result<bool, AllocError> {
    let paths = paths(alloc)?;
    Ok(tell(alloc, &paths, &PATHS)? == [true; 5])
}

/// Whether two buffers tell what they should.
fn buffers_are_told(alloc: Global) -> Result<bool, AllocError> {
    let buffers = buffers(alloc)?;
    let is_first = buffers.first() == Some(ScanSourceRef::Buffer(4));
    Ok(tell(alloc, &buffers, &BUFFERS)? == [true; 5] && is_first)
}

/// Whether no sources have the name that they should have.
fn none_are_told(alloc: Global) -> Result<bool, AllocError> {
    let none = ScanSources::empty(alloc);
    has_id(alloc, &none, "EMPTY")
}

/// Whether paths are others than buffers.
fn are_others(alloc: Global) -> Result<bool, AllocError> {
    let paths = paths(alloc)?;
    Ok(paths != buffers(alloc)?)
}

/// Options with numbers of rows.
fn numbered(alloc: Global) -> Result<FileScanOptions, AllocError> {
    let name = PlSmallStr::new(alloc, "i")?;
    let mut options = FileScanOptions::default();
    options.row_index = Some(RowIndex { name, offset: 0 });
    Ok(options)
}

/// Each kind with its name, whether it streams, and whether it sorts what it reads, without numbers of rows and with them.
const KINDS: [(FileScan, &str, [bool; 3]); 4] = [
    (FileScan::Csv, "Csv", [true, true, true]),
    (FileScan::NDJson, "NDJson", [false, false, false]),
    (FileScan::Parquet, "Parquet", [true, false, false]),
    (FileScan::Ipc, "Ipc", [false, false, true]),
];

/// The marks of a kind, without numbers of rows and with them.
fn marks(kind: &FileScan, plain: &FileScanOptions, numbered: &FileScanOptions) -> [bool; 3] {
    [
        kind.streamable(),
        kind.sort_projection(plain),
        kind.sort_projection(numbered),
    ]
}

/// Whether all kinds tell what they should.
fn are_kinds(plain: &FileScanOptions, numbered: &FileScanOptions) -> bool {
    for (kind, name, wanted) in &KINDS {
        if kind.name() != *name || marks(kind, plain, numbered) != *wanted {
            return false;
        }
    }
    true
}

/// The same beside options that are as usual.
fn kinds_are_usual(numbered: &FileScanOptions) -> bool {
    let plain = FileScanOptions::default();
    are_kinds(&plain, numbered)
}

/// The same of all options.
fn kinds_are_told(alloc: Global) -> Result<bool, AllocError> {
    let numbered = numbered(alloc)?;
    Ok(kinds_are_usual(&numbered))
}

/// Whether sources and kinds tell what they should.
fn answers(alloc: Global) -> Result<[bool; 5], AllocError> {
    Ok([
        paths_are_told(alloc)?,
        buffers_are_told(alloc)?,
        none_are_told(alloc)?,
        are_others(alloc)?,
        kinds_are_told(alloc)?,
    ])
}

#[test]
fn sources_and_kinds_are_told(rt: HostRuntime) {
    assert!(rt; answers(rt.alloc()) == Ok([true; 5]));
}
