//! The new names that a renaming gives.
ghost use Rattle.std.specs.Prelude.{◌≡◌, List, ℕ, None, Some, IfNone, IfOk, IfSome, is_some};
ghost use Rattle.plan_core.specs.Columns.{names_of};
ghost use Rattle.plan_meaning.specs.Functions.{former, name_in, names_now, new_name, stay_apart};
ghost use Rattle.plan_frame.specs.Reshaped.{renamed_columns};

use indexmap::IndexMap;
use plan_core::{PlSmallStr, Schema};
use std::alloc::{AllocError, Global};
use std::marker::Model;

/// New names by the names that get them. A contract sees the pairs, each of a name and the one that it gets.
#[derive(Drop)]
pub struct Renaming {
    names: IndexMap<String, String>,
}

impl Model for Renaming {
    ghost use Rattle.std.specs.Prelude.{List, ℕ, map, string_bytes};

    ghost Value = { List (List ℕ × List ℕ) };

    ghost view = { λ s. map (λ p. (string_bytes p.0, string_bytes p.1)) s.names.entries };
}

impl Renaming {
    /// The renaming that gives each of some names the new name at its place; of a name that comes twice the first place
    /// counts, and one without a partner is left out. Refuses for want of memory alone.
    pub fn new(
        alloc: Global,
        existing: &[PlSmallStr],
        new: &[PlSmallStr],
    ) -> Result<Self, AllocError>
        ensures { IfOk result (λ names. (a : List ℕ) → name_in names a ≡ new_name existing.now new.now a) }
    {
        let mut names = IndexMap::new(alloc);
        let mut left = if existing.len() < new.len() {
            existing.len()
        } else {
            new.len()
        };
        while left > 0 {
            left -= 1;
            let name = String::from_str(alloc, existing[left].as_str())?;
            names.insert(name, String::from_str(alloc, new[left].as_str())?)?;
        }
        Ok(Renaming { names })
    }

    /// The renaming back: it gives each name of a schema that this renaming makes the name from which it is made; of one
    /// that is made twice the first. Refuses for want of memory alone.
    pub fn back(&self, alloc: Global, schema: &Schema) -> Result<Self, AllocError>
        ensures { IfOk result (λ names. (a : List ℕ) → name_in names a ≡ former (names_now self.now) (names_of schema.now) a) }
    {
        let mut names = IndexMap::new(alloc);
        let mut left = schema.len();
        while left > 0 {
            left -= 1;
            if let Some((name, _)) = schema.get_at_index(left) {
                let now = String::from_str(alloc, self.now(name))?;
                names.insert(now, String::from_str(alloc, name)?)?;
            }
        }
        Ok(Renaming { names })
    }

    /// The name that a name gets, if it gets one.
    pub fn get(&self, name: &str) -> Option<&str>
        ensures some { IfSome result (λ now. name_in self.now name.now ≡ Some now.now) }
        ensures none { IfNone result (name_in self.now name.now ≡ None) }
    {
        match self.names.get(name) {
            None => None,
            Some(now) => Some(now.as_str()),
        }
    }

    /// The name that a name gets, or itself.
    pub fn now<'a>(&'a self, name: &'a str) -> &'a str
        ensures { result.now ≡ names_now self.now name.now }
    {
        match self.get(name) {
            None => name,
            Some(now) => now,
        }
    }

    /// The columns of a schema under the names that they get, in order; None exactly where two of them get one name.
    /// Refuses for want of memory alone.
    pub fn schema(&self, alloc: Global, schema: &Schema) -> Result<Option<Schema>, AllocError>
        ensures columns { IfOk result (λ made. IfSome made (λ s. s ≡ renamed_columns (names_now self.now) schema.now)) }
        ensures some { IfOk result (λ made. is_some made ≡ stay_apart (names_now self.now) (names_of schema.now)) }
    {
        let mut made = Schema::new(alloc);
        for (name, dtype) in schema.iter() {
            let now = PlSmallStr::new(alloc, self.now(name))?;
            if made.with_column(now, *dtype)?.is_some() {
                return Ok(None);
            }
        }
        Ok(Some(made))
    }
}
