//! The names under which expressions are put out.
ghost use Rattle.std.specs.Prelude.{◌≡◌, true, Some, IfOk, IfErr, slice_get};
ghost use Rattle.std.specs.List.{filter_map};
ghost use Rattle.plan_dsl.specs.Children.{lent};
ghost use Rattle.plan_dsl.specs.Naming.{said};
ghost use Rattle.plan_dsl.specs.Names.{decision, named_parts, output_name};
ghost use Rattle.plan_expr.specs.Refusals.{RefusesNone};
ghost use Rattle.plan_dsl.specs.Typing.{has_form};
ghost use Rattle.plan_dsl.specs.Walks.{walk_by};

use crate::children::Children;
use crate::expr::Expr;
use plan_core::{At, PlSmallStr, PolarsError, PolarsResult};
use std::alloc::Global;

/// What an expression decides of the name of those that it is a part of.
#[derive(Clone, Copy)]
pub(crate) enum Naming<'a> {
    /// Nothing.
    Open,
    /// That it is this one.
    Named(&'a str),
    /// That there is none.
    Nameless,
}

impl Expr {
    /// What the expression itself decides of the name.
    fn naming(&self) -> Naming<'_>
        ensures { said result ≡ decision self.now }
    {
        match self {
            Expr::Alias(_, name) => Naming::Named(name.as_str()),
            Expr::Column(name) => Naming::Named(name.as_str()),
            Expr::Len => Naming::Named("len"),
            Expr::Literal(_) => Naming::Named("literal"),
            Expr::Columns(_)
            | Expr::DtypeColumn(_)
            | Expr::IndexColumn(_)
            | Expr::Wildcard
            | Expr::KeepName(_)
            | Expr::RenameAlias { .. } => Naming::Nameless,
            Expr::BinaryExpr { .. }
            | Expr::Cast { .. }
            | Expr::Sort { .. }
            | Expr::Gather { .. }
            | Expr::SortBy { .. }
            | Expr::Agg(_)
            | Expr::Ternary { .. }
            | Expr::Function { .. }
            | Expr::Explode(_)
            | Expr::Filter { .. }
            | Expr::Window { .. }
            | Expr::Slice { .. }
            | Expr::Exclude(_, _)
            | Expr::Nth(_) => Naming::Open,
        }
    }

    /// The expressions in this one that may decide the name: of a window its function alone.
    fn named_parts(&self) -> Children<'_>
        ensures { lent result ≡ named_parts self.now }
    {
        match self {
            Expr::Window { function, .. } => Children::One(function),
            _ => self.children(),
        }
    }
}

/// What the first expression that decides says of the name.
fn first_naming(expr: &Expr) -> Naming<'_>
    ensures { said result ≡ slice_get (filter_map decision (walk_by named_parts expr.now)) 0 }
{
    match expr.naming() {
        Naming::Open => {}
        decided => return decided,
    }
    let parts = expr.named_parts();
    for index in 0..parts.len() {
        match first_naming(parts.at(index)) {
            Naming::Open => {}
            decided => return decided,
        }
    }
    Naming::Open
}

impl Expr {
    /// The name under which an expression is put out that has a form in plans.
    pub fn form_name(&self) -> &str
        requires { has_form self.now ≡ true }
        ensures { output_name self.now ≡ Some result.now }
    {
        match first_naming(self) {
            Naming::Named(name) => name,
            Naming::Open | Naming::Nameless => unreachable!(),
        }
    }
}

/// The name under which the expression is put out, as the first expression in walk order decides it
/// that decides any; of a window its function alone is looked at. It is a computation fault where
/// that one gives no name, or where none decides.
pub fn expr_output_name(alloc: Global, expr: &Expr) -> PolarsResult<PlSmallStr>
    ensures name { IfOk result (λ name. output_name expr.now ≡ Some name) }
    ensures fault { IfErr result (RefusesNone (output_name expr.now)) }
{
    match first_naming(expr) {
        Naming::Named(name) => Ok(PlSmallStr::new(alloc, name)?),
        Naming::Open | Naming::Nameless => Err(PolarsError::ComputeError(At {
            node: None,
            place: 0,
        })),
    }
}
