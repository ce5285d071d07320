//! Laws of sources, as the contracts of functions that do nothing.
ghost use Rattle.std.specs.Prelude.{◌≡◌, true};
ghost use Rattle.plan_scan.specs.declared.file_scan.FileScan.{FileScan as Kind};
ghost use Rattle.plan_scan.specs.declared.sources.ScanSources.{ScanSources as Sources};

use crate::file_scan::FileScan;
use crate::sources::ScanSources;
use std::hash::Hash;

/// Sources that are equal are hashed alike.
pub fn equal_sources_hash_equally()
    ensures { (a b : Sources) → ⟦<ScanSources as PartialEq>⟧.eq a b ≡ true → ⟦<ScanSources as Hash>⟧.hash_input a ≡ ⟦<ScanSources as Hash>⟧.hash_input b }
{}

/// Formats that are equal are hashed alike.
pub fn equal_kinds_hash_equally()
    ensures { (a b : Kind) → ⟦<FileScan as PartialEq>⟧.eq a b ≡ true → ⟦<FileScan as Hash>⟧.hash_input a ≡ ⟦<FileScan as Hash>⟧.hash_input b }
{}
