//! Expressions by the names under which they are put out.
ghost use Rattle.std.specs.Prelude.{◌≡◌, [], IfOk, IfNone, IfSome, None, OnOk, Some};
ghost use Rattle.std.specs.List.{position};
ghost use Rattle.std.specs.Str.{bytes_eq};
ghost use Rattle.plan_core.specs.Names.{AreDistinct, has, with_name};
ghost use Rattle.plan_cluster.specs.ExprNames.{expr_named, expr_names};

use indexmap::IndexSet;
use plan_expr::{ExprIR, output_name};
use std::alloc::{AllocError, Global};
use std::marker::Model;

/// The names under which expressions are put out, with a look-up of their places. A contract sees the list of their bytes.
#[derive(Drop)]
pub struct Places {
    names: IndexSet<String>,
}

impl Model for Places {
    ghost use Rattle.std.specs.Prelude.{List, ℕ, map, string_bytes};

    ghost Value = { List (List ℕ) };

    ghost view = { λ s. map string_bytes s.names.keys };
}

impl Places {
    /// No names.
    fn new(alloc: Global) -> Self
        ensures { result ≡ [] }
    {
        Places {
            names: IndexSet::new(alloc),
        }
    }

    /// Adds a name, last, unless it is there. Refuses for want of memory alone.
    fn add(&mut self, alloc: Global, name: &str) -> Result<(), AllocError>
        ensures { OnOk result (self.new ≡ with_name self.old name.now) }
    {
        let owned = String::from_str(alloc, name)?;
        self.names.insert(owned)?;
        Ok(())
    }

    /// The places of expressions. Refuses for want of memory alone.
    pub fn of(alloc: Global, exprs: &[ExprIR]) -> Result<Self, AllocError>
        requires { AreDistinct (expr_names exprs.now) }
        ensures { IfOk result (λ places. places ≡ expr_names exprs.now) }
    {
        let mut places = Places::new(alloc);
        for expr in exprs {
            places.add(alloc, output_name(&expr.output_name))?;
        }
        Ok(places)
    }

    /// The place of a name, if it is there.
    fn get(&self, name: &str) -> Option<usize>
        ensures { result ≡ position (bytes_eq name.now) self.now }
    {
        self.names.get_index_of(name)
    }

    /// Whether an expression has the name.
    pub fn contains(&self, name: &str) -> bool
        ensures { result ≡ has self.now name.now }
    {
        self.names.contains(name)
    }

    /// The expression of a name, if there is one.
    pub fn find<'a>(&self, exprs: &'a [ExprIR], name: &str) -> Option<&'a ExprIR>
        requires { self.now ≡ expr_names exprs.now }
        ensures found { IfSome result (λ e. expr_named exprs.now name.now ≡ Some e.now) }
        ensures none { IfNone result (expr_named exprs.now name.now ≡ None) }
    {
        match self.get(name) {
            Some(place) => Some(&exprs[place]),
            None => None,
        }
    }
}
