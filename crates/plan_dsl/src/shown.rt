//! How expressions are shown: by the name of their kind alone.

use crate::expr::{AggExpr, Expr};
use std::fmt;

impl Expr {
    /// The name of the expression's kind.
    fn kind(&self) -> &'static str {
        match self {
            Expr::Alias(_, _) => "Alias",
            Expr::Column(_) => "Column",
            Expr::Columns(_) => "Columns",
            Expr::DtypeColumn(_) => "DtypeColumn",
            Expr::IndexColumn(_) => "IndexColumn",
            Expr::Literal(_) => "Literal",
            Expr::BinaryExpr { .. } => "BinaryExpr",
            Expr::Cast { .. } => "Cast",
            Expr::Sort { .. } => "Sort",
            Expr::Gather { .. } => "Gather",
            Expr::SortBy { .. } => "SortBy",
            Expr::Agg(_) => "Agg",
            Expr::Ternary { .. } => "Ternary",
            Expr::Function { .. } => "Function",
            Expr::Explode(_) => "Explode",
            Expr::Filter { .. } => "Filter",
            Expr::Window { .. } => "Window",
            Expr::Wildcard => "Wildcard",
            Expr::Slice { .. } => "Slice",
            Expr::Exclude(_, _) => "Exclude",
            Expr::KeepName(_) => "KeepName",
            Expr::RenameAlias { .. } => "RenameAlias",
            Expr::Len => "Len",
            Expr::Nth(_) => "Nth",
        }
    }
}

impl fmt::Debug for Expr {
    fn fmt<W: fmt::Write>(&self, f: &mut fmt::Formatter<W>) -> fmt::Result {
        f.write_str(self.kind())
    }
}

impl AggExpr {
    /// The name of the aggregate.
    fn kind(&self) -> &'static str {
        match self {
            AggExpr::Min(_) => "Min",
            AggExpr::Max(_) => "Max",
            AggExpr::Sum(_) => "Sum",
            AggExpr::Count(_, _) => "Count",
            AggExpr::NUnique(_) => "NUnique",
            AggExpr::First(_) => "First",
            AggExpr::Last(_) => "Last",
            AggExpr::Implode(_) => "Implode",
        }
    }
}

impl fmt::Debug for AggExpr {
    fn fmt<W: fmt::Write>(&self, f: &mut fmt::Formatter<W>) -> fmt::Result {
        f.write_str(self.kind())
    }
}
