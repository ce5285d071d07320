//! The expressions of plans.
#![tactic(auto)]

mod aexpr;
mod agg;
mod expr_ir;
mod find;
mod form;
mod function_expr;
mod iterator;
pub mod laws;
mod leaves;
mod literal;
mod names;
mod nodes;
mod operator;
mod same;
mod scalar;
mod types;

pub use aexpr::AExpr;
pub use agg::{Aggregate, IRAggExpr};
pub use expr_ir::{ExprIR, OutputName};
pub use find::{has_aexpr, has_aexpr_literal, has_aexpr_window};
pub use form::has_form;
pub use function_expr::FunctionExpr;
pub use iterator::{AExprIter, ArenaExprIter};
pub use leaves::{
    AExprLeafNames, aexpr_to_leaf_name, aexpr_to_leaf_names, aexpr_to_leaf_names_iter,
    column_node_to_name,
};
pub use literal::LiteralValue;
pub use names::{Naming, aexpr_output_name, decided_name, may_be_named, output_name};
pub use operator::Operator;
pub use same::same_expr;
pub use scalar::{is_elementwise, is_scalar};
pub use types::{
    aggregate_type, binary_type, choice_type, list_of, literal_type, operator_type, unary_type,
};
