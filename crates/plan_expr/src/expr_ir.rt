//! Expressions with the names under which they are put out.
ghost use Rattle.std.specs.Prelude.{◌≡◌, ◌↔◌, Some, IfOk, IfErr, IfSome, IfNone, IsTrue};
ghost use Rattle.plan_expr.specs.declared.expr_ir.OutputName.TheVariants.{None as Unnamed, Alias as Aliased};
ghost use Rattle.plan_expr.specs.Exprs.{expr_at};
ghost use Rattle.plan_expr.specs.Leaves.{Name};
ghost use Rattle.plan_expr.specs.Naming.{name_of, naming, own_output_name};
ghost use Rattle.plan_expr.specs.Operands.{IsExpr};
ghost use Rattle.plan_expr.specs.Refusals.{RefusesNone};

use crate::aexpr::AExpr;
use crate::names::{Naming, decided_name, nameless};
use plan_core::{Arena, Node, PlSmallStr, PolarsResult, TryClone};
use std::alloc::{AllocError, Global};

/// The name under which an expression is put out, and where it comes from.
#[derive(Drop, PartialEq, Eq, Debug)]
pub enum OutputName {
    /// No name; no valid plan has an expression without one.
    None,
    /// The name of a literal, or of the number of rows, that decides.
    LiteralLhs(PlSmallStr),
    /// The name of a column that decides.
    ColumnLhs(PlSmallStr),
    /// A name that was given.
    Alias(PlSmallStr),
}

impl TryClone for OutputName {
    fn try_clone(&self, alloc: Global) -> Result<Self, AllocError>
        ensures { IfOk result (λ r. r ≡ self.now) }
    {
        match self {
            OutputName::None => Ok(OutputName::None),
            OutputName::LiteralLhs(name) => Ok(OutputName::LiteralLhs(name.try_clone(alloc)?)),
            OutputName::ColumnLhs(name) => Ok(OutputName::ColumnLhs(name.try_clone(alloc)?)),
            OutputName::Alias(name) => Ok(OutputName::Alias(name.try_clone(alloc)?)),
        }
    }
}

/// The number of an expression, with its output name.
#[derive(Drop, PartialEq, Eq, Debug)]
pub struct ExprIR {
    /// The number of the expression.
    pub node: Node,
    /// The name under which it is put out.
    pub output_name: OutputName,
}

impl ExprIR {
    /// An expression under an output name.
    pub fn new(node: Node, output_name: OutputName) -> Self
        ensures node { result.node ≡ node }
        ensures name { result.output_name ≡ output_name }
    {
        ExprIR { node, output_name }
    }

    /// The expression at a number, under the name that it gives itself: that of its first column or alias in walk order,
    /// or `literal` or `len` where a literal or the number of rows comes before them. It is a computation fault where nothing
    /// in it gives a name.
    pub fn from_node(alloc: Global, node: Node, ex: &Arena<AExpr>) -> PolarsResult<ExprIR>
        requires { IsExpr ex.now node }
        ensures node { IfOk result (λ e. e.node ≡ node) }
        ensures name { IfOk result (λ e. own_output_name (naming (expr_at ex.now node)) ≡ Some e.output_name) }
        ensures fault { IfErr result (RefusesNone (own_output_name (naming (expr_at ex.now node)))) }
    {
        let output_name = match decided_name(node, ex) {
            Some(Naming::Column(name)) => OutputName::ColumnLhs(PlSmallStr::new(alloc, name)?),
            Some(Naming::Literal(name)) => OutputName::LiteralLhs(PlSmallStr::new(alloc, name)?),
            Some(Naming::Alias(name)) => OutputName::Alias(PlSmallStr::new(alloc, name)?),
            None => return Err(nameless()),
        };
        Ok(ExprIR { node, output_name })
    }

    /// The number of the expression.
    pub fn node(&self) -> Node
        ensures { result ≡ self.now.node }
    {
        self.node
    }

    /// The name under which the expression is put out, and where it comes from.
    pub fn output_name_inner(&self) -> &OutputName
        ensures { result.now ≡ self.now.output_name }
    {
        &self.output_name
    }

    /// The name under which the expression is put out, which has one.
    pub fn output_name(&self) -> &PlSmallStr
        requires { self.now.output_name ≡ Unnamed → ⊥ }
        ensures { result.now ≡ name_of self.now.output_name }
    {
        match &self.output_name {
            OutputName::LiteralLhs(name) | OutputName::ColumnLhs(name) | OutputName::Alias(name) =>
                name,
            OutputName::None => unreachable!(),
        }
    }

    /// Whether the expression has a name that was given.
    pub fn has_alias(&self) -> bool
        ensures { IsTrue result ↔ ((name : Name) × (self.now.output_name ≡ Aliased name)) }
    {
        matches!(self.output_name, OutputName::Alias(_))
    }

    /// The name that was given, if there is one.
    pub fn get_alias(&self) -> Option<&PlSmallStr>
        ensures given { IfSome result (λ name. self.now.output_name ≡ Aliased name.now) }
        ensures none { IfNone result ((name : Name) → self.now.output_name ≡ Aliased name → ⊥) }
    {
        match &self.output_name {
            OutputName::Alias(name) => Some(name),
            _ => None,
        }
    }
}

impl TryClone for ExprIR {
    fn try_clone(&self, alloc: Global) -> Result<Self, AllocError>
        ensures { IfOk result (λ r. r ≡ self.now) }
    {
        Ok(ExprIR {
            node: self.node,
            output_name: self.output_name.try_clone(alloc)?,
        })
    }
}
