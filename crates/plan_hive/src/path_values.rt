//! The values of hive columns in a path, by name.
ghost use Rattle.std.specs.Prelude.{◌≡◌, ◌++◌, ◌∷◌, [], not, IfOk, option_copied};
ghost use Rattle.std.specs.Bool.{OnTrue};
ghost use Rattle.std.specs.Map.{lookup};
ghost use Rattle.std.specs.Str.{bytes_eq};
ghost use Rattle.plan_core.specs.Names.{has};
ghost use Rattle.plan_hive.specs.Parts.{part_names};

use indexmap::IndexMap;
use plan_core::PlSmallStr;
use std::alloc::{AllocError, Global};
use std::marker::Model;

/// The values of hive columns in a path, found by name: each a text, or None, which is null. A contract sees the list of
/// the columns.
#[derive(Drop)]
pub(crate) struct PathValues {
    values: IndexMap<String, Option<PlSmallStr>>,
}

impl Model for PathValues {
    ghost use Rattle.std.specs.Prelude.{List, ℕ, Option, map, string_bytes};

    ghost Value = { List (List ℕ × Option (List ℕ)) };

    ghost view = { λ s. map (λ p. (string_bytes p.0, p.1)) s.values.entries };
}

impl PathValues {
    /// No columns.
    pub(crate) fn new(alloc: Global) -> Self
        ensures { result ≡ [] }
    {
        PathValues {
            values: IndexMap::new(alloc),
        }
    }

    /// Adds a column, last, unless its name is there; says whether it was added. Refuses for want of memory alone.
    pub(crate) fn add(
        &mut self,
        alloc: Global,
        name: &str,
        value: Option<PlSmallStr>,
    ) -> Result<bool, AllocError>
        ensures added { IfOk result (λ b. b ≡ not (has (part_names self.old) name.now)) }
        ensures after { IfOk result (λ b. OnTrue b (self.new ≡ self.old ++ (name.now, value) ∷ [])) }
    {
        if self.values.contains_key(name) {
            return Ok(false);
        }
        let _ = self.values.insert(String::from_str(alloc, name)?, value)?;
        Ok(true)
    }

    /// The value of a column, if the column is there.
    pub(crate) fn get(&self, name: &str) -> Option<&Option<PlSmallStr>>
        ensures { option_copied result ≡ lookup (bytes_eq name.now) self.now }
    {
        self.values.get(name)
    }
}
