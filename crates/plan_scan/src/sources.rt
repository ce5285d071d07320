//! Where a scan reads from.
ghost use Rattle.std.specs.Prelude.{◌≡◌, ◌<◌, ◌==◌, [], length, IfOk, Some, slice_get, option_map, option_copied};
ghost use Rattle.std.specs.Option.{option_and_then};
ghost use Rattle.std.specs.Map.Iter.{ShowsInOrder};
ghost use Rattle.plan_scan.specs.Sources.{are_paths, id_of, path_name, paths_of, source_of, sources_of};
ghost use Rattle.plan_scan.specs.declared.sources.ScanSources.TheVariants.{Paths as paths_only};

use crate::source_iter::ScanSourceIter;
use plan_core::{Items, PlSmallStr, TryClone};
use std::alloc::{AllocError, Global};
use std::fmt;

/// Where a scan reads from, in order. Two are equal where both are paths with the same texts, or both buffers with the
/// same numbers.
#[derive(Drop, PartialEq, Eq, Hash)]
pub enum ScanSources {
    /// The paths of files.
    Paths(Items<PlSmallStr>),
    /// The numbers of buffers, which the caller gives.
    Buffers(Items<u32>),
}

/// One source, lent.
#[derive(Clone, Copy, PartialEq, Eq, Hash, Debug)]
pub enum ScanSourceRef<'a> {
    /// The file of this path.
    Path(&'a PlSmallStr),
    /// The buffer of this number.
    Buffer(u32),
}

impl ScanSources {
    /// No paths.
    pub fn empty(alloc: Global) -> Self
        ensures { result ≡ paths_only [] }
    {
        ScanSources::Paths(Items::new(alloc))
    }

    /// The sources, from the first on, each once.
    pub fn iter(&self) -> ScanSourceIter<'_>
        ensures rest { result ≡ sources_of self.now }
        ensures runs { ShowsInOrder source_of }
    {
        match self {
            ScanSources::Paths(paths) => ScanSourceIter::of_paths(paths.as_slice()),
            ScanSources::Buffers(numbers) => ScanSourceIter::of_buffers(numbers.as_slice()),
        }
    }

    /// Whether they are paths.
    pub fn is_paths(&self) -> bool
        ensures { result ≡ are_paths self.now }
    {
        matches!(self, ScanSources::Paths(_))
    }

    /// The paths; None exactly for buffers.
    pub fn as_paths(&self) -> Option<&[PlSmallStr]>
        ensures { option_map (λ paths. paths.now) result ≡ paths_of self.now }
    {
        match self {
            ScanSources::Paths(paths) => Some(paths.as_slice()),
            ScanSources::Buffers(_) => None,
        }
    }

    /// A copy of the paths; None exactly for buffers. It refuses only where memory is short.
    pub fn into_paths(&self, alloc: Global) -> Result<Option<Items<PlSmallStr>>, AllocError>
        ensures { IfOk result (λ paths. paths ≡ paths_of self.now) }
    {
        match self {
            ScanSources::Paths(paths) => Ok(Some(paths.try_clone(alloc)?)),
            ScanSources::Buffers(_) => Ok(None),
        }
    }

    /// The first path; None exactly for buffers and for no paths.
    pub fn first_path(&self) -> Option<&PlSmallStr>
        ensures { option_copied result ≡ option_and_then (λ paths. slice_get paths 0) (paths_of self.now) }
    {
        match self {
            ScanSources::Paths(paths) => paths.as_slice().first(),
            ScanSources::Buffers(_) => None,
        }
    }

    /// How many there are.
    pub fn len(&self) -> usize
        ensures { result ≡ length (sources_of self.now) }
    {
        match self {
            ScanSources::Paths(paths) => paths.len(),
            ScanSources::Buffers(numbers) => numbers.len(),
        }
    }

    /// Whether there are none.
    pub fn is_empty(&self) -> bool
        ensures { result ≡ (length (sources_of self.now) == 0) }
    {
        self.len() == 0
    }

    /// The first source; None exactly where there are none.
    pub fn first(&self) -> Option<ScanSourceRef<'_>>
        ensures { option_map source_of result ≡ slice_get (sources_of self.now) 0 }
    {
        self.get(0)
    }

    /// The source at a place, counted from 0; None exactly where there are not so many.
    pub fn get(&self, idx: usize) -> Option<ScanSourceRef<'_>>
        ensures { option_map source_of result ≡ slice_get (sources_of self.now) idx }
    {
        match self {
            ScanSources::Paths(paths) => match paths.as_slice().get(idx) {
                None => None,
                Some(path) => Some(ScanSourceRef::Path(path)),
            },
            ScanSources::Buffers(numbers) => match numbers.as_slice().get(idx) {
                None => None,
                Some(number) => Some(ScanSourceRef::Buffer(*number)),
            },
        }
    }

    /// The source at a place, counted from 0, which is below how many there are.
    pub fn at(&self, idx: usize) -> ScanSourceRef<'_>
        requires { idx < length (sources_of self.now) }
        ensures { slice_get (sources_of self.now) idx ≡ Some (source_of result) }
    {
        self.get(idx).unwrap()
    }

    /// A text that tells sources apart: the first path, `EMPTY` where there are no sources, and `IN_MEMORY` for buffers.
    /// It refuses only where memory is short.
    pub fn id(&self, alloc: Global) -> Result<PlSmallStr, AllocError>
        ensures { IfOk result (λ text. text ≡ id_of self.now) }
    {
        match self.first() {
            None => PlSmallStr::new(alloc, "EMPTY"),
            Some(ScanSourceRef::Path(path)) => path.try_clone(alloc),
            Some(ScanSourceRef::Buffer(_)) => PlSmallStr::new(alloc, "IN_MEMORY"),
        }
    }
}

impl<'a> ScanSourceRef<'a> {
    /// The value that a column of paths has for the rows of this source: its path, and `in-mem` for a buffer.
    pub fn to_include_path_name(&self) -> &str
        ensures { result.now ≡ path_name (source_of self.now) }
    {
        match self {
            ScanSourceRef::Path(path) => path.as_str(),
            ScanSourceRef::Buffer(_) => "in-mem",
        }
    }
}

impl TryClone for ScanSources {
    fn try_clone(&self, alloc: Global) -> Result<Self, AllocError>
        ensures { IfOk result (λ r. r ≡ self.now) }
    {
        match self {
            ScanSources::Paths(paths) => Ok(ScanSources::Paths(paths.try_clone(alloc)?)),
            ScanSources::Buffers(numbers) => Ok(ScanSources::Buffers(numbers.try_clone(alloc)?)),
        }
    }
}

// The paths themselves, and of buffers how many.
impl fmt::Debug for ScanSources {
    fn fmt<W: fmt::Write>(&self, f: &mut fmt::Formatter<W>) -> fmt::Result {
        match self {
            ScanSources::Paths(paths) => write!(f, "paths: {paths:?}"),
            ScanSources::Buffers(numbers) => {
                write!(f, "buffers: {} in-memory-buffers", numbers.len())
            }
        }
    }
}
