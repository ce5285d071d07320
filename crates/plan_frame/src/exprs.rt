//! Expressions over some columns: whether these are found, and the type.
ghost use Rattle.std.specs.Prelude.{◌≡◌, ◌∷◌, [], ◌++◌, All, List, length};
ghost use Rattle.plan_core.specs.declared.data_type.DataType.{DataType};
ghost use Rattle.plan_expr.specs.Operands.{IsExpr, operands_of};
ghost use Rattle.plan_expr.specs.Exprs.{all_named_at, expr_at, expr_op};
ghost use Rattle.plan_expr.specs.Types.{function_type as type_of_function};
ghost use Rattle.plan_expr.specs.Leaves.{leaves};
ghost use Rattle.plan_frame.specs.Exprs.{all_known, expr_type as type_of_expr, op_type};
ghost use Rattle.plan_frame.specs.Firsts.{first_types};
ghost use Rattle.plan_frame.specs.ExprLists.{counts_rows as are_count, all_scalar as are_scalar};

use plan_core::{Arena, DataType, Node, Schema};
use plan_expr::{
    AExpr, ExprIR, FunctionExpr, aggregate_type, binary_type, choice_type, is_scalar, literal_type,
    operator_type, unary_type,
};

/// Whether each column of the expression is one of the schema's.
pub fn reads_only(node: Node, ex: &Arena<AExpr>, schema: &Schema) -> bool
    requires { IsExpr ex.now node }
    ensures { result ≡ all_known (leaves (expr_at ex.now node)) schema.now }
{
    let expr = ex.get(node);
    if let Some(name) = expr.column_name() {
        return schema.get(name).is_some();
    }
    let mut place = 0;
    while let Some(operand) = expr.operand(place) {
        if !reads_only(operand, ex, schema) {
            return false;
        }
        place += 1;
    }
    true
}

/// The types of the first three of some operands, from the first one on, where there are so many.
#[derive(Clone, Copy)]
pub(crate) struct FirstTypes {
    first: Option<DataType>,
    second: Option<DataType>,
    third: Option<DataType>,
}

/// The first three types where there is one more.
fn with_one(types: FirstTypes, dtype: DataType) -> FirstTypes
    ensures { (ts : List DataType) → types ≡ first_types ts → result ≡ first_types (ts ++ dtype ∷ []) }
{
    match (types.first, types.second, types.third) {
        (None, _, _) => FirstTypes {
            first: Some(dtype),
            ..types
        },
        (_, None, _) => FirstTypes {
            second: Some(dtype),
            ..types
        },
        (_, _, None) => FirstTypes {
            third: Some(dtype),
            ..types
        },
        _ => types,
    }
}

/// The type of a function over inputs of these types, if it takes them.
fn function_type(function: FunctionExpr, types: FirstTypes) -> Option<DataType>
    ensures { (ts : List DataType) → types ≡ first_types ts → result ≡ type_of_function function ts }
{
    match (types.first, types.second, types.third) {
        (Some(only), None, _) => unary_type(function, only),
        (Some(first), Some(second), None) => binary_type(function, first, second),
        _ => None,
    }
}

/// The type of an expression over the columns of a schema, from the types of all its operands, if it has one.
fn type_over(expr: &AExpr, types: FirstTypes, schema: &Schema) -> Option<DataType>
    ensures { (ts : List DataType) → types ≡ first_types ts → length ts ≡ length (operands_of expr.now) → result ≡ op_type (expr_op expr.now) schema.now ts }
{
    match expr {
        AExpr::Column(name) => schema.get(name.as_str()).copied(),
        AExpr::Literal(value) => Some(literal_type(value)),
        AExpr::Alias(..) | AExpr::Window { .. } => types.first,
        AExpr::BinaryExpr { op, .. } => operator_type(*op, types.first?, types.second?),
        AExpr::Ternary { .. } => choice_type(types.third?, types.first?, types.second?),
        AExpr::Agg(agg) => aggregate_type(agg.aggregate(), types.first?),
        AExpr::Function { function, .. } => function_type(*function, types),
        AExpr::Len => Some(DataType::Int64),
    }
}

/// The type of the expression over the columns of a schema, if it has one.
pub fn expr_type(node: Node, ex: &Arena<AExpr>, schema: &Schema) -> Option<DataType>
    requires { IsExpr ex.now node }
    ensures { result ≡ type_of_expr (expr_at ex.now node) schema.now }
{
    let expr = ex.get(node);
    let mut types = FirstTypes {
        first: None,
        second: None,
        third: None,
    };
    let mut place = 0;
    while let Some(operand) = expr.operand(place) {
        types = with_one(types, expr_type(operand, ex, schema)?);
        place += 1;
    }
    type_over(expr, types, schema)
}

/// Whether the expressions are scalar throughout.
pub fn all_scalar(exprs: &[ExprIR], ex: &Arena<AExpr>) -> bool
    requires { All (λ e. IsExpr ex.now e.node) exprs.now }
    ensures { result ≡ are_scalar (all_named_at ex.now exprs.now) }
{
    for expr in exprs {
        if !is_scalar(expr.node, ex) {
            return false;
        }
    }
    true
}

/// Whether the expressions are the number of rows alone.
pub fn counts_rows(exprs: &[ExprIR], ex: &Arena<AExpr>) -> bool
    requires { All (λ e. IsExpr ex.now e.node) exprs.now }
    ensures { result ≡ are_count (all_named_at ex.now exprs.now) }
{
    match exprs {
        [expr] => matches!(ex.get(expr.node), AExpr::Len),
        _ => false,
    }
}
