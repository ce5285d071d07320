//! Expressions over some columns: their types.
ghost use Rattle.std.specs.Prelude.{◌≡◌, map, is_some, option_and_then};
ghost use Rattle.std.specs.List.{list_all};
ghost use Rattle.plan_expr.specs.Types.{all_of, function_type as type_of_function};
ghost use Rattle.plan_dsl.specs.Typing.{expr_type as type_of_expr};

use plan_core::{DataType, Schema};
use plan_dsl::Expr;
use plan_expr::{
    FunctionExpr, aggregate_type, binary_type, choice_type, literal_type, operator_type, unary_type,
};

/// The type of the expression over the columns of a schema, if it has one. Kinds that plans don't have
/// have none.
#[cycle(types)]
pub(crate) fn expr_type(expr: &Expr, schema: &Schema) -> Option<DataType>
    ensures { result ≡ type_of_expr schema.now expr.now }
{
    match expr {
        Expr::Alias(expr, _) => expr_type(expr, schema),
        Expr::Column(name) => schema.get(name.as_str()).copied(),
        Expr::Literal(value) => Some(literal_type(value)),
        Expr::BinaryExpr { left, op, right } => {
            operator_type(*op, expr_type(left, schema)?, expr_type(right, schema)?)
        }
        Expr::Agg(agg) => aggregate_type(agg.aggregate(), expr_type(agg.input(), schema)?),
        Expr::Ternary {
            predicate,
            truthy,
            falsy,
        } => {
            let predicate = expr_type(predicate, schema)?;
            let truthy = expr_type(truthy, schema)?;
            let falsy = expr_type(falsy, schema)?;
            choice_type(predicate, truthy, falsy)
        }
        Expr::Function {
            input,
            function,
            ..
        } => function_type(*function, input, schema),
        Expr::Window {
            function,
            partition_by,
        } => {
            if all_typed(partition_by, schema) {
                expr_type(function, schema)
            } else {
                None
            }
        }
        Expr::Len => Some(DataType::Int64),
        _ => None,
    }
}

/// The type of a function over its inputs, if it takes them.
#[cycle(types)]
fn function_type(function: FunctionExpr, inputs: &[Expr], schema: &Schema) -> Option<DataType>
    ensures { result ≡ option_and_then (type_of_function function) (all_of (map (type_of_expr schema.now) inputs.now)) }
{
    match inputs {
        [input] => unary_type(function, expr_type(input, schema)?),
        [first, second] => {
            let first = expr_type(first, schema)?;
            let second = expr_type(second, schema)?;
            binary_type(function, first, second)
        }
        _ => None,
    }
}

/// Whether each expression has a type.
#[cycle(types)]
fn all_typed(exprs: &[Expr], schema: &Schema) -> bool
    ensures { result ≡ list_all (λ e. is_some (type_of_expr schema.now e)) exprs.now }
{
    for expr in exprs {
        if expr_type(expr, schema).is_none() {
            return false;
        }
    }
    true
}
