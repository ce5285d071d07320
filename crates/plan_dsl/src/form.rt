//! Expressions that plans have: which they are, and which of them have one value.
ghost use Rattle.std.specs.Prelude.{◌≡◌, not};
ghost use Rattle.std.specs.List.{list_all};
ghost use Rattle.plan_dsl.specs.Typing.{has_form as is_formed, has_own_form as is_formed_itself, is_known as is_found, is_scalar as is_single, reads_only as reads_found};

use crate::expr::Expr;
use crate::find::has_expr;
use plan_core::Schema;

impl Expr {
    /// Whether the expression has one value, whatever the frame. Kinds that plans don't have are left out.
    #[cycle(scalar)]
    pub fn is_scalar(&self) -> bool
        ensures { result ≡ is_single self.now }
    {
        match self {
            Expr::Literal(_) | Expr::Len | Expr::Agg(_) => true,
            Expr::Alias(expr, _) => expr.is_scalar(),
            Expr::BinaryExpr { left, right, .. } => left.is_scalar() && right.is_scalar(),
            Expr::Ternary {
                predicate,
                truthy,
                falsy,
            } => predicate.is_scalar() && truthy.is_scalar() && falsy.is_scalar(),
            Expr::Function { input, .. } => all_scalar(input),
            _ => false,
        }
    }

    /// Whether the expression itself is one that plans have.
    fn has_own_form(&self) -> bool
        ensures { result ≡ is_formed_itself self.now }
    {
        match self {
            Expr::Alias(_, _)
            | Expr::Column(_)
            | Expr::Literal(_)
            | Expr::BinaryExpr { .. }
            | Expr::Agg(_)
            | Expr::Ternary { .. }
            | Expr::Len => true,
            Expr::Function {
                input,
                function,
                options,
            } => function.carries(options) && input.len() == function.inputs(),
            Expr::Window {
                function,
                partition_by,
            } => function.is_scalar() && !partition_by.is_empty(),
            _ => false,
        }
    }

    /// Whether the expression has a form in plans: it and each one below it is one that plans have.
    pub fn has_form(&self) -> bool
        ensures { result ≡ is_formed self.now }
    {
        !has_expr(
            self,
            |expr: &Expr| -> bool
                ensures { result ≡ not (is_formed_itself expr.now) }
            { !expr.has_own_form() },
        )
    }

    /// Whether the expression is no column that is absent.
    fn is_known(&self, schema: &Schema) -> bool
        ensures { result ≡ is_found schema.now self.now }
    {
        match self {
            Expr::Column(name) => schema.get(name.as_str()).is_some(),
            _ => true,
        }
    }

    /// Whether each column in the expression is one of the schema's.
    pub fn reads_only(&self, schema: &Schema) -> bool
        ensures { result ≡ reads_found schema.now self.now }
    {
        !has_expr(
            self,
            |expr: &Expr| -> bool
                ensures { result ≡ not (is_found schema.entry.now expr.now) }
            { !expr.is_known(schema) },
        )
    }
}

/// Whether each expression has one value.
#[cycle(scalar)]
fn all_scalar(exprs: &[Expr]) -> bool
    ensures { result ≡ list_all is_single exprs.now }
{
    for expr in exprs {
        if !expr.is_scalar() {
            return false;
        }
    }
    true
}
