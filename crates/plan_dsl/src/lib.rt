//! Expressions as trees, and the calls that walk, name and rewrite them.
#![tactic(auto)]

mod apart;
mod arity;
mod children;
mod copy;
mod expr;
mod expr_iter;
mod find;
mod form;
mod leaves;
mod map;
mod mapper;
mod output_name;
mod over;
mod parts;
mod shown;
mod walk;

pub use expr::{AggExpr, Expr};
pub use expr_iter::ExprIter;
pub use find::{has_expr, has_null};
pub use leaves::{
    LeafColumnNames, expr_to_leaf_column_name, expr_to_leaf_column_names,
    expr_to_leaf_column_names_iter,
};
pub use mapper::{ExprMapper, RewritingVisitor};
pub use output_name::expr_output_name;
pub use plan_expr::FunctionExpr;
