//! The names that expressions give themselves, and those under which they are put out.
ghost use Rattle.std.specs.Prelude.{◌≡◌, ◌≤◌, ◌^◌, slice_get, Some, IfOk, IfErr, IfSome};
ghost use Rattle.plan_core.specs.Errors.{item_at};
ghost use Rattle.plan_core.specs.declared.error.PolarsError.TheVariants.{ComputeError};
ghost use Rattle.plan_expr.specs.Operands.{IsExpr, operands_of};
ghost use Rattle.plan_expr.specs.Exprs.{expr_at, expr_op};
ghost use Rattle.plan_expr.specs.Naming.{naming, naming_seen, named_part, own_naming as naming_of, may_be_named as may_be, name_of, own_name};
ghost use Rattle.plan_expr.specs.Refusals.{RefusesNone};

use crate::aexpr::AExpr;
use crate::expr_ir::OutputName;
use plan_core::{Arena, At, Node, PlSmallStr, PolarsError, PolarsResult};
use std::alloc::Global;

/// What names an expression.
#[derive(Clone, Copy)]
pub enum Naming<'a> {
    /// A column, by its own name.
    Column(&'a str),
    /// A literal or the number of rows, by the name `literal` or `len`.
    Literal(&'a str),
    /// An alias of this name.
    Alias(&'a str),
}

/// What an expression is named by without its operands, if it is.
fn own_naming(expr: &AExpr) -> Option<Naming<'_>>
    ensures { naming_seen result ≡ naming_of (expr_op expr.now) }
{
    match expr {
        AExpr::Column(name) => Some(Naming::Column(name.as_str())),
        AExpr::Literal(_) => Some(Naming::Literal("literal")),
        AExpr::Len => Some(Naming::Literal("len")),
        AExpr::Alias(_, name) => Some(Naming::Alias(name.as_str())),
        AExpr::BinaryExpr { .. }
        | AExpr::Ternary { .. }
        | AExpr::Agg(_)
        | AExpr::Function { .. }
        | AExpr::Window { .. } => None,
    }
}

/// The operand of a place, among those in which a name is looked for: of a window that is its function alone.
fn named_operand(expr: &AExpr, place: usize) -> Option<Node>
    ensures there { result ≡ slice_get (named_part (expr_op expr.now) (operands_of expr.now)) place }
    ensures further { IfSome result (λ _. place ≤ 2 ^ 63) }
{
    match (expr, place) {
        (AExpr::Window { function, .. }, 0) => Some(*function),
        (AExpr::Window { .. }, _) => None,
        _ => expr.operand(place),
    }
}

/// The first column, literal, alias or number of rows of the expression, in walk order, if it has one. A window is followed
/// into its function only.
pub fn decided_name(node: Node, ex: &Arena<AExpr>) -> Option<Naming<'_>>
    requires { IsExpr ex.now node }
    ensures { naming_seen result ≡ naming (expr_at ex.now node) }
{
    let expr = ex.get(node);
    if let Some(own) = own_naming(expr) {
        return Some(own);
    }
    let mut place = 0;
    while let Some(operand) = named_operand(expr, place) {
        if let Some(name) = decided_name(operand, ex) {
            return Some(name);
        }
        place += 1;
    }
    None
}

/// The fault of an expression in which nothing gives a name.
pub fn nameless() -> PolarsError
    ensures { result ≡ ComputeError (item_at 0) }
{
    PolarsError::ComputeError(At {
        node: None,
        place: 0,
    })
}

/// The name that the expression gives itself: that of its first column or alias in walk order, or `literal` or `len` where
/// a literal or the number of rows comes before them. It is a computation fault where nothing in it gives a name.
pub fn aexpr_output_name(alloc: Global, node: Node, ex: &Arena<AExpr>) -> PolarsResult<PlSmallStr>
    requires { IsExpr ex.now node }
    ensures name { IfOk result (λ name. own_name (naming (expr_at ex.now node)) ≡ Some name) }
    ensures fault { IfErr result (RefusesNone (own_name (naming (expr_at ex.now node)))) }
{
    match decided_name(node, ex) {
        Some(Naming::Column(name) | Naming::Literal(name) | Naming::Alias(name)) => {
            Ok(PlSmallStr::new(alloc, name)?)
        }
        None => Err(nameless()),
    }
}

/// The name under which an expression is put out; the empty text where it has none.
pub fn output_name(name: &OutputName) -> &str
    ensures { result.now ≡ name_of name.now }
{
    match name {
        OutputName::None => "",
        OutputName::LiteralLhs(name) | OutputName::ColumnLhs(name) | OutputName::Alias(name) => {
            name.as_str()
        }
    }
}

/// Whether the expression may be put out under this name: the name that it gives itself or, where no alias in it gives
/// one, any name as an alias.
pub fn may_be_named(name: &OutputName, node: Node, ex: &Arena<AExpr>) -> bool
    requires { IsExpr ex.now node }
    ensures { result ≡ may_be name.now (naming (expr_at ex.now node)) }
{
    match (name, decided_name(node, ex)) {
        (OutputName::None, _) => false,
        (OutputName::Alias(name), Some(Naming::Alias(alias))) => name.as_str() == alias,
        (OutputName::Alias(_), _) => true,
        (OutputName::ColumnLhs(name), Some(Naming::Column(column))) => name.as_str() == column,
        (OutputName::LiteralLhs(name), Some(Naming::Literal(literal))) => name.as_str() == literal,
        (OutputName::ColumnLhs(_) | OutputName::LiteralLhs(_), _) => false,
    }
}
