//! What sources hold. Contracts see a list of sources with their tables.
ghost use Rattle.std.specs.Prelude.{◌≡◌, ◌++◌, ◌∷◌, [], length, None, IfSome, OnOk, OnErr, option_copied};
ghost use Rattle.plan_table.specs.Places.{noted, places_from, places_seen};
ghost use Rattle.plan_table.specs.Tables.{IsTable, table_at};
ghost use Rattle.plan_table.specs.declared.source_key.SourceKey.TheVariants.{Path as path_key};

use crate::source_key::SourceKey;
use crate::table::Table;
use indexmap::IndexMap;
use std::alloc::{AllocError, Global};
use std::marker::Model;

/// The tables of sources, in the order in which they came, no source twice. A contract sees the list of the sources with
/// their tables.
#[derive(Drop)]
pub struct Tables {
    tables: IndexMap<SourceKey, Table>,
    /// The places of the paths among the keys, so that a path is found without a key of its own.
    paths: IndexMap<String, usize>,
}

impl Model for Tables {
    ghost use Rattle.std.specs.Prelude.{List};
    ghost use Rattle.plan_table.specs.declared.source_key.SourceKey.{SourceKey};
    ghost use Rattle.plan_table.specs.declared.table.Table.{Table};

    ghost Value = { List (SourceKey × Table) };

    ghost view = { λ s. s.tables.entries };

    ghost use Rattle.plan_table.specs.Places.{AreNoted};

    // No source stands twice, each table is well formed, and each path is noted at its place.
    ghost invariant = { λ s. AreNoted s.tables.entries s.paths.entries };
}

/// Notes the place of a key, if it is a path.
fn note(
    alloc: Global,
    paths: &mut IndexMap<String, usize>,
    key: &SourceKey,
    place: usize,
) -> Result<(), AllocError>
    requires { noted key.now (places_seen paths.old.entries) ≡ None }
    ensures after { OnOk result (places_seen paths.new.entries ≡ places_seen paths.old.entries ++ places_from place (key.now ∷ [])) }
    ensures unchanged { OnErr result (paths.new.entries ≡ paths.old.entries) }
{
    if let SourceKey::Path(path) = key {
        let name = String::from_str(alloc, path.as_str())?;
        let _ = paths.insert(name, place)?;
    }
    Ok(())
}

impl Tables {
    /// No tables.
    pub fn new(alloc: Global) -> Self
        ensures { result ≡ [] }
    {
        Tables {
            tables: IndexMap::new(alloc),
            paths: IndexMap::new(alloc),
        }
    }

    /// How many tables there are.
    pub fn len(&self) -> usize
        ensures { result ≡ length self.now }
    {
        self.tables.len()
    }

    /// Adds the table of a source, last. Refuses for want of memory alone.
    pub fn add(&mut self, key: SourceKey, table: Table) -> Result<(), AllocError>
        requires absent { table_at self.old key ≡ None }
        requires formed { IsTable table }
        ensures after { OnOk result (self.new ≡ self.old ++ (key, table) ∷ []) }
        ensures unchanged { OnErr result (self.new ≡ self.old) }
    {
        self.tables.reserve(1)?;
        let place = self.tables.len();
        note(*self.tables.allocator(), &mut self.paths, &key, place)?;
        let _ = self.tables.insert(key, table)?;
        Ok(())
    }

    /// The table of a source, if it has one.
    pub fn get(&self, key: &SourceKey) -> Option<&Table>
        ensures found { option_copied result ≡ table_at self.now key.now }
        ensures formed { IfSome result (λ table. IsTable table.now) }
    {
        self.tables.get(key)
    }

    /// The table of the file of a path, if it has one.
    pub fn get_path(&self, path: &str) -> Option<&Table>
        ensures found { option_copied result ≡ table_at self.now (path_key path.now) }
        ensures formed { IfSome result (λ table. IsTable table.now) }
    {
        let place = self.paths.get(path)?;
        match self.tables.get_index(*place) {
            None => None,
            Some((_, table)) => Some(table),
        }
    }
}
