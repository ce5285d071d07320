//! The types of literals, and of what operators, aggregates, choices and functions give.
ghost use Rattle.std.specs.Prelude.{◌≡◌};
ghost use Rattle.plan_expr.specs.Types.{aggregate_type as type_of_aggregate, are_alike as are_of_one_type, binary_type as type_of_two, choice_type as type_of_choice, gives as is_given, list_of as lists_of, literal_type as type_of_literal, operator_type as type_of_operator, takes as is_taken, unary_type as type_of_one};

use crate::agg::Aggregate;
use crate::function_expr::FunctionExpr;
use crate::literal::LiteralValue;
use crate::operator::Operator;
use plan_core::DataType;

/// The type of a literal.
pub fn literal_type(value: &LiteralValue) -> DataType
    ensures { result ≡ type_of_literal value.now }
{
    match value {
        LiteralValue::Null(plain) => DataType::from(*plain),
        LiteralValue::Int64(_) => DataType::Int64,
        LiteralValue::String(_) => DataType::String,
        LiteralValue::Boolean(_) => DataType::Boolean,
    }
}

/// Whether both types are one, that of single values.
fn are_alike(left: DataType, right: DataType) -> bool
    ensures { result ≡ are_of_one_type left right }
{
    left == right && left.plain_type().is_some()
}

/// Whether an operator takes operands of these types: a comparison two of one type of single values,
/// logic truth values, arithmetic whole numbers.
fn takes(op: Operator, left: DataType, right: DataType) -> bool
    ensures { result ≡ is_taken op left right }
{
    match op {
        Operator::Eq
        | Operator::NotEq
        | Operator::Lt
        | Operator::LtEq
        | Operator::Gt
        | Operator::GtEq
        | Operator::EqValidity
        | Operator::NotEqValidity => are_alike(left, right),
        Operator::And | Operator::Or | Operator::Xor => {
            left == DataType::Boolean && right == DataType::Boolean
        }
        Operator::Plus | Operator::Minus | Operator::Multiply => {
            left == DataType::Int64 && right == DataType::Int64
        }
    }
}

/// The type of what an operator gives.
fn gives(op: Operator) -> DataType
    ensures { result ≡ is_given op }
{
    match op {
        Operator::Plus | Operator::Minus | Operator::Multiply => DataType::Int64,
        Operator::Eq
        | Operator::NotEq
        | Operator::Lt
        | Operator::LtEq
        | Operator::Gt
        | Operator::GtEq
        | Operator::EqValidity
        | Operator::NotEqValidity
        | Operator::And
        | Operator::Or
        | Operator::Xor => DataType::Boolean,
    }
}

/// The type of an operator over operands of these types, if it takes them.
pub fn operator_type(op: Operator, left: DataType, right: DataType) -> Option<DataType>
    ensures { result ≡ type_of_operator op left right }
{
    if takes(op, left, right) {
        Some(gives(op))
    } else {
        None
    }
}

/// The type of the lists of some values, where these are no lists.
pub fn list_of(values: DataType) -> Option<DataType>
    ensures { result ≡ lists_of values }
{
    match values.plain_type() {
        Some(plain) => Some(DataType::List(plain)),
        None => None,
    }
}

/// The type of what an aggregate makes of values of a type, if it takes them.
pub fn aggregate_type(aggregate: Aggregate, values: DataType) -> Option<DataType>
    ensures { result ≡ type_of_aggregate aggregate values }
{
    match aggregate {
        Aggregate::Min | Aggregate::Max => values.plain_type().map(DataType::from),
        Aggregate::Sum => {
            if values == DataType::Int64 {
                Some(DataType::Int64)
            } else {
                None
            }
        }
        Aggregate::Count(_) => Some(DataType::Int64),
        Aggregate::NUnique => values.plain_type().map(|_| DataType::Int64),
        Aggregate::First | Aggregate::Last => Some(values),
        Aggregate::Implode => list_of(values),
    }
}

/// The type of a choice between two values, if what decides is a truth value and they are of one type.
pub fn choice_type(predicate: DataType, truthy: DataType, falsy: DataType) -> Option<DataType>
    ensures { result ≡ type_of_choice predicate truthy falsy }
{
    if predicate == DataType::Boolean && truthy == falsy {
        Some(truthy)
    } else {
        None
    }
}

/// The type of a function of one input, if it takes it.
pub fn unary_type(function: FunctionExpr, input: DataType) -> Option<DataType>
    ensures { result ≡ type_of_one function input }
{
    match function {
        FunctionExpr::Not => {
            if input == DataType::Boolean {
                Some(input)
            } else {
                None
            }
        }
        FunctionExpr::IsNull | FunctionExpr::IsNotNull => Some(DataType::Boolean),
        FunctionExpr::FillNull => None,
        FunctionExpr::Reverse => Some(input),
        FunctionExpr::CumSum => {
            if input == DataType::Int64 {
                Some(input)
            } else {
                None
            }
        }
    }
}

/// The type of a function of two inputs, if it takes them.
pub fn binary_type(function: FunctionExpr, first: DataType, second: DataType) -> Option<DataType>
    ensures { result ≡ type_of_two function first second }
{
    match function {
        FunctionExpr::FillNull => { if first == second { Some(first) } else { None } }
        FunctionExpr::Not
        | FunctionExpr::IsNull
        | FunctionExpr::IsNotNull
        | FunctionExpr::Reverse
        | FunctionExpr::CumSum => None,
    }
}
