//! The names of types, operators, aggregates, functions, rows that are kept, kinds and parts of joins, and errors.
ghost use Rattle.std.specs.Prelude.{◌≡◌};
ghost use Rattle.plan_text_pieces.specs.Kinds.{list_text, type_text, plain_text, literal_text, operator_text, agg_text, function_text, keep_text, how_text, coalesce_text, order_text, inequality_text, fault_text, place_of};

use plan_core::{At, DataType, PlainType, PolarsError};
use plan_expr::{FunctionExpr, IRAggExpr, LiteralValue, Operator};
use plan_options::{
    InequalityOperator, JoinCoalesce, JoinType, MaintainOrderJoin, UniqueKeepStrategy,
};

/// The name of a type of lists in a document: `List(Int64)`, `List(String)` or `List(Boolean)`.
fn list_name(plain: PlainType) -> &'static str
    ensures { result.now ≡ list_text plain }
{
    match plain {
        PlainType::Int64 => "List(Int64)",
        PlainType::String => "List(String)",
        PlainType::Boolean => "List(Boolean)",
    }
}

/// The name of a type in a document: `Int64`, `String`, `Boolean`, or one of these in `List(..)`.
pub fn type_name(data_type: DataType) -> &'static str
    ensures { result.now ≡ type_text data_type }
{
    match data_type {
        DataType::Int64 => "Int64",
        DataType::String => "String",
        DataType::Boolean => "Boolean",
        DataType::List(plain) => list_name(plain),
    }
}

/// The name of the type of a single value in a document.
fn plain_name(plain: PlainType) -> &'static str
    ensures { result.now ≡ plain_text plain }
{
    match plain {
        PlainType::Int64 => "Int64",
        PlainType::String => "String",
        PlainType::Boolean => "Boolean",
    }
}

/// The name of the type of a literal in a document.
pub fn literal_type(value: &LiteralValue) -> &'static str
    ensures { result.now ≡ literal_text value.now }
{
    match value {
        LiteralValue::Null(plain) => plain_name(*plain),
        LiteralValue::Int64(_) => "Int64",
        LiteralValue::String(_) => "String",
        LiteralValue::Boolean(_) => "Boolean",
    }
}

/// The name of an operator in a document, as `GtEq`.
pub fn operator_name(operator: Operator) -> &'static str
    ensures { result.now ≡ operator_text operator }
{
    match operator {
        Operator::Eq => "Eq",
        Operator::NotEq => "NotEq",
        Operator::Lt => "Lt",
        Operator::LtEq => "LtEq",
        Operator::Gt => "Gt",
        Operator::GtEq => "GtEq",
        Operator::EqValidity => "EqValidity",
        Operator::NotEqValidity => "NotEqValidity",
        Operator::And => "And",
        Operator::Or => "Or",
        Operator::Xor => "Xor",
        Operator::Plus => "Plus",
        Operator::Minus => "Minus",
        Operator::Multiply => "Multiply",
    }
}

/// The name of an aggregate in a document, as `NUnique`; `CountAll` is a count of all values, nulls too.
pub fn agg_name(agg: IRAggExpr) -> &'static str
    ensures { result.now ≡ agg_text agg }
{
    match agg {
        IRAggExpr::Min(_) => "Min",
        IRAggExpr::Max(_) => "Max",
        IRAggExpr::Sum(_) => "Sum",
        IRAggExpr::Count(_, false) => "Count",
        IRAggExpr::Count(_, true) => "CountAll",
        IRAggExpr::NUnique(_) => "NUnique",
        IRAggExpr::First(_) => "First",
        IRAggExpr::Last(_) => "Last",
        IRAggExpr::Implode(_) => "Implode",
    }
}

/// The name of a function in a document, as `IsNull`.
pub fn function_name(function: FunctionExpr) -> &'static str
    ensures { result.now ≡ function_text function }
{
    match function {
        FunctionExpr::Not => "Not",
        FunctionExpr::IsNull => "IsNull",
        FunctionExpr::IsNotNull => "IsNotNull",
        FunctionExpr::FillNull => "FillNull",
        FunctionExpr::Reverse => "Reverse",
        FunctionExpr::CumSum => "CumSum",
    }
}

/// The name of which row is kept in a document: the `keep` of distinct rows.
pub fn keep_name(keep: UniqueKeepStrategy) -> &'static str
    ensures { result.now ≡ keep_text keep }
{
    match keep {
        UniqueKeepStrategy::First => "First",
        UniqueKeepStrategy::Last => "Last",
        UniqueKeepStrategy::None => "None",
        UniqueKeepStrategy::Any => "Any",
    }
}

/// The name of which pairs of rows a join gives in a document: the `how` of a join.
pub fn how_name(how: JoinType) -> &'static str
    ensures { result.now ≡ how_text how }
{
    match how {
        JoinType::Inner => "Inner",
        JoinType::Left => "Left",
        JoinType::Right => "Right",
        JoinType::Full => "Full",
        JoinType::Cross => "Cross",
        JoinType::Semi => "Semi",
        JoinType::Anti => "Anti",
        JoinType::IEJoin => "IEJoin",
    }
}

/// The name of whether pairs of key columns are put out as one: the `coalesce` of a join.
pub fn coalesce_name(coalesce: JoinCoalesce) -> &'static str
    ensures { result.now ≡ coalesce_text coalesce }
{
    match coalesce {
        JoinCoalesce::JoinSpecific => "JoinSpecific",
        JoinCoalesce::CoalesceColumns => "CoalesceColumns",
        JoinCoalesce::KeepColumns => "KeepColumns",
    }
}

/// The name of which order of its inputs a join keeps: the `maintain_order` of a join.
pub fn order_name(order: MaintainOrderJoin) -> &'static str
    ensures { result.now ≡ order_text order }
{
    match order {
        MaintainOrderJoin::None => "None",
        MaintainOrderJoin::Left => "Left",
        MaintainOrderJoin::Right => "Right",
        MaintainOrderJoin::LeftRight => "LeftRight",
        MaintainOrderJoin::RightLeft => "RightLeft",
    }
}

/// The name of an inequality in a document, as `GtEq`.
pub fn inequality_name(inequality: InequalityOperator) -> &'static str
    ensures { result.now ≡ inequality_text inequality }
{
    match inequality {
        InequalityOperator::Lt => "Lt",
        InequalityOperator::LtEq => "LtEq",
        InequalityOperator::Gt => "Gt",
        InequalityOperator::GtEq => "GtEq",
    }
}

/// The `kind` of an error in its text.
pub fn fault_name(error: &PolarsError) -> &'static str
    ensures { result.now ≡ fault_text error.now }
{
    match error {
        PolarsError::SchemaFieldNotFound(_) => "SchemaFieldNotFound",
        PolarsError::Duplicate(_) => "Duplicate",
        PolarsError::SchemaMismatch(_) => "SchemaMismatch",
        PolarsError::InvalidOperation(_) => "InvalidOperation",
        PolarsError::ComputeError(_) => "ComputeError",
        PolarsError::OutOfMemory => "OutOfMemory",
    }
}

/// The node and the place of an error; for `OutOfMemory` no node and place 0.
pub fn place(error: &PolarsError) -> At
    ensures { result ≡ place_of error.now }
{
    match error {
        PolarsError::SchemaFieldNotFound(at)
        | PolarsError::Duplicate(at)
        | PolarsError::SchemaMismatch(at)
        | PolarsError::InvalidOperation(at)
        | PolarsError::ComputeError(at) => *at,
        PolarsError::OutOfMemory => At {
            node: None,
            place: 0,
        },
    }
}
