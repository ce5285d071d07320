//! The sources of a scan, one after another. Contracts see a walk as the sources that are left.
ghost use Rattle.std.specs.Prelude.{◌≡◌, length, map as map_list, ⊤};
ghost use Rattle.std.specs.Iterator.{at_most};
ghost use Rattle.std.specs.Map.Iter.{TakesFirst};
ghost use Rattle.plan_scan.specs.Sources.{source_of};
ghost use Rattle.plan_scan.specs.Source.{buffer as buffer_source, file as file_source};

use crate::sources::ScanSourceRef;
use plan_core::PlSmallStr;
use std::marker::Model;
use std::slice;

/// The sources of a scan that are left, from the first on: each is given once. A contract sees the list of them.
#[derive(Drop)]
pub struct ScanSourceIter<'a> {
    walk: Walk<'a>,
}

/// What is left of the paths, or of the buffers.
#[derive(Drop)]
enum Walk<'a> {
    Paths(slice::Iter<'a, PlSmallStr>),
    Buffers(slice::Iter<'a, u32>),
}

impl<'a> Model for ScanSourceIter<'a> {
    ghost use Rattle.std.specs.Prelude.{List};
    ghost use Rattle.plan_scan.specs.Source.{Source};
    ghost use Rattle.plan_scan.specs.Walk.{walk_rest};

    ghost Value = { List Source };

    ghost view = { λ s. walk_rest s.walk };
}

impl<'a> ScanSourceIter<'a> {
    /// The files of these paths.
    pub(crate) fn of_paths(paths: &'a [PlSmallStr]) -> Self
        ensures { result ≡ map_list file_source paths.now }
    {
        ScanSourceIter {
            walk: Walk::Paths(paths.iter()),
        }
    }

    /// The buffers of these numbers.
    pub(crate) fn of_buffers(numbers: &'a [u32]) -> Self
        ensures { result ≡ map_list buffer_source numbers.now }
    {
        ScanSourceIter {
            walk: Walk::Buffers(numbers.iter()),
        }
    }
}

impl<'a> Iterator for ScanSourceIter<'a> {
    type Item = ScanSourceRef<'a>;

    ghost next_gives = { TakesFirst source_of };

    ghost remaining = { λ s. at_most (length s) };

    fn next(&mut self) -> Option<ScanSourceRef<'a>> {
        match &mut self.walk {
            Walk::Paths(paths) => Some(ScanSourceRef::Path(paths.next()?)),
            Walk::Buffers(numbers) => Some(ScanSourceRef::Buffer(*numbers.next()?)),
        }
    }

    fn size_hint(&self) -> (usize, Option<usize>) {
        let len = self.len();
        (len, Some(len))
    }
}

impl<'a> ExactSizeIterator for ScanSourceIter<'a> {
    fn len(&self) -> usize {
        match &self.walk {
            Walk::Paths(paths) => paths.len(),
            Walk::Buffers(numbers) => numbers.len(),
        }
    }
}
