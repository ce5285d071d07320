//! Where names stand in a list.
ghost use Rattle.std.specs.Prelude.{◌≡◌, [], IfOk, OnOk};
ghost use Rattle.std.specs.List.{position};
ghost use Rattle.std.specs.Str.{bytes_eq};
ghost use Rattle.plan_core.specs.Names.{with_name};

use indexmap::IndexSet;
use plan_core::Names;
use std::alloc::{AllocError, Global};
use std::marker::Model;

/// Names with a look-up of their places. A contract sees the list of their bytes.
#[derive(Drop)]
pub struct Places {
    names: IndexSet<String>,
}

impl Model for Places {
    ghost use Rattle.std.specs.Prelude.{List, ℕ, map, string_bytes};

    ghost Value = { List (List ℕ) };

    ghost view = { λ s. map string_bytes s.names.keys };
}

impl Places {
    /// No names.
    fn new(alloc: Global) -> Self
        ensures { result ≡ [] }
    {
        Places {
            names: IndexSet::new(alloc),
        }
    }

    /// Adds a name, last, unless it is there. Refuses for want of memory alone.
    fn add(&mut self, alloc: Global, name: &str) -> Result<(), AllocError>
        ensures { OnOk result (self.new ≡ with_name self.old name.now) }
    {
        let owned = String::from_str(alloc, name)?;
        self.names.insert(owned)?;
        Ok(())
    }

    /// The places of these names. Refuses for want of memory alone.
    pub fn of(alloc: Global, names: &Names) -> Result<Self, AllocError>
        ensures { IfOk result (λ places. places ≡ names.now) }
    {
        let mut places = Places::new(alloc);
        for i in 0..names.len() {
            if let Some(name) = names.get_at_index(i) {
                places.add(alloc, name)?;
            }
        }
        Ok(places)
    }

    /// The place of a name, if it is there.
    pub fn get(&self, name: &str) -> Option<usize>
        ensures { result ≡ position (bytes_eq name.now) self.now }
    {
        self.names.get_index_of(name)
    }
}
