//! From which columns of its sides a join takes those that it puts out, by the names under which it does.
ghost use Rattle.std.specs.Prelude.{◌≡◌, All, IfNone, IfOk, IfSome, None, Some, map};
ghost use Rattle.plan_core.specs.Columns.{names_of};
ghost use Rattle.plan_expr.specs.Leaves.{Name};
ghost use Rattle.plan_expr.specs.Operands.{IsExpr};
ghost use Rattle.plan_join.specs.Naming.{key_columns, origin, right_name as called_right};
ghost use Rattle.plan_meaning.specs.Functions.{name_in, new_name};
ghost use Rattle.plan_prune_parts.specs.Origins.{origin_in};

use plan_core::{Arena, Items, PlSmallStr, Schema};
use plan_expr::{AExpr, ExprIR};
use plan_join::{Side, left_rest, right_name, right_rest};
use plan_options::JoinArgs;
use plan_schema::Renaming;
use std::alloc::{AllocError, Global};

/// The names of right columns, under which a join puts them out beside left ones. Refuses for want of memory alone.
fn names_called(
    alloc: Global,
    suffix: &str,
    left: &Schema,
    right: &Schema,
) -> Result<Items<PlSmallStr>, AllocError>
    ensures { IfOk result (λ called. called ≡ map (λ c. called_right suffix.now (names_of left.now) c.0) right.now) }
{
    let mut called = Items::new(alloc);
    for (name, _) in right.iter() {
        called.push(right_name(alloc, suffix, left, name)?)?;
    }
    Ok(called)
}

/// The names of columns. Refuses for want of memory alone.
fn own_names(alloc: Global, columns: &Schema) -> Result<Items<PlSmallStr>, AllocError>
    ensures { IfOk result (λ own. own ≡ names_of columns.now) }
{
    let mut own = Items::new(alloc);
    for (name, _) in columns.iter() {
        own.push(PlSmallStr::new(alloc, name)?)?;
    }
    Ok(own)
}

/// The names of right columns, by those under which a join puts them out beside left ones. Refuses for want of memory alone.
fn right_names(
    alloc: Global,
    suffix: &str,
    left: &Schema,
    right: &Schema,
) -> Result<Renaming, AllocError>
    ensures { IfOk result (λ names. (a : Name) → name_in names a ≡ new_name (map (λ c. called_right suffix.now (names_of left.now) c.0) right.now) (names_of right.now) a) }
{
    let called = names_called(alloc, suffix, left, right)?;
    let own = own_names(alloc, right)?;
    Renaming::new(alloc, called.as_slice(), own.as_slice())
}

/// The columns of the sides of a join, by the names under which it puts them out.
#[derive(Drop)]
pub struct Origins {
    /// The left columns that it puts out, each under its own name.
    left: Schema,
    /// The names of the right columns that it puts out, by those under which it does.
    right: Renaming,
}

impl Origins {
    /// The columns of a join of these sides. Refuses for want of memory alone.
    pub fn new(
        alloc: Global,
        args: &JoinArgs,
        left_on: &[ExprIR],
        right_on: &[ExprIR],
        left: &Schema,
        right: &Schema,
        ex: &Arena<AExpr>,
    ) -> Result<Self, AllocError>
        requires left_keys { All (λ e. IsExpr ex.now e.node) left_on.now }
        requires right_keys { All (λ e. IsExpr ex.now e.node) right_on.now }
        ensures { IfOk result (λ origins. (a : Name) → origin_in origins a ≡ origin args.now (key_columns ex.now left_on.now) (key_columns ex.now right_on.now) left.now right.now a) }
    {
        let rest = left_rest(alloc, args, left_on, left, ex)?;
        let others = right_rest(alloc, args, right_on, right, ex)?;
        let names = right_names(alloc, args.suffix(), &rest, &others)?;
        drop(others);
        Ok(Origins {
            left: rest,
            right: names,
        })
    }

    /// The column that is put out under a name: its side, and its name there; None exactly where none is.
    pub fn get<'a>(&'a self, name: &'a str) -> Option<(Side, &'a str)>
        ensures some { IfSome result (λ c. origin_in self.now name.now ≡ Some (c.0, c.1.now)) }
        ensures none { IfNone result (origin_in self.now name.now ≡ None) }
    {
        if self.left.get(name).is_some() {
            return Some((Side::Left, name));
        }
        match self.right.get(name) {
            Some(own) => Some((Side::Right, own)),
            None => None,
        }
    }
}
