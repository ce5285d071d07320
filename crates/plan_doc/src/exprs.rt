//! The readers of expressions.
ghost use Rattle.serde_json.specs.View.{view};
ghost use Rattle.plan_doc_parts.specs.Gives.{Gives, Shows};
ghost use Rattle.plan_doc_parts.specs.Members.{object_of};
ghost use Rattle.plan_doc.specs.Exprs.{operator_of, column_expr_of, value_of, value_or_null, literal_of, alias_of, binary_of, ternary_keys, ternary_of, agg_kind_of, agg_of, function_name_of, function_of, window_of, len_of, expr_of};

use plan_core::{Node, PlainType};
use plan_doc_parts::{
    Fault, field, integer, link_at, links_at, name, name_at, object, plain_type, read, text, truth,
};
use plan_expr::{AExpr, FunctionExpr, IRAggExpr, LiteralValue, Operator};
use serde_json::Value;
use std::alloc::Global;

/// The operator of a name.
#[tactic(auto, unfolding(crate::specs::Exprs::operator_of, crate::specs::Exprs::operator_named))]
fn operator(value: &Value) -> Result<Operator, Fault>
    ensures { Gives result (operator_of (view value.now)) }
{
    match read!(text(value)) {
        "Eq" => Ok(Operator::Eq),
        "NotEq" => Ok(Operator::NotEq),
        "Lt" => Ok(Operator::Lt),
        "LtEq" => Ok(Operator::LtEq),
        "Gt" => Ok(Operator::Gt),
        "GtEq" => Ok(Operator::GtEq),
        "EqValidity" => Ok(Operator::EqValidity),
        "NotEqValidity" => Ok(Operator::NotEqValidity),
        "And" => Ok(Operator::And),
        "Or" => Ok(Operator::Or),
        "Xor" => Ok(Operator::Xor),
        "Plus" => Ok(Operator::Plus),
        "Minus" => Ok(Operator::Minus),
        "Multiply" => Ok(Operator::Multiply),
        _ => Err(Fault::Form),
    }
}

/// The column of an entry.
#[tactic(auto, unfolding(crate::specs::Exprs::column_expr_of))]
fn column_expr(alloc: Global, value: &Value) -> Result<AExpr, Fault>
    ensures { Gives result (column_expr_of (view value.now)) }
{
    let object = read!(object(value, &["name", "op"]));
    let name = read!(name_at(alloc, object, "name"));
    Ok(AExpr::Column(name))
}

/// A value of the type.
fn plain_value(alloc: Global, plain: PlainType, value: &Value) -> Result<LiteralValue, Fault>
    ensures { Gives result (value_of plain (view value.now)) }
{
    match plain {
        PlainType::Int64 => Ok(LiteralValue::Int64(read!(integer(value)))),
        PlainType::String => Ok(LiteralValue::String(read!(name(alloc, value)))),
        PlainType::Boolean => Ok(LiteralValue::Boolean(read!(truth(value)))),
    }
}

/// Null of the type, or a value of it.
fn literal_value(alloc: Global, plain: PlainType, value: &Value) -> Result<LiteralValue, Fault>
    ensures { Gives result (value_or_null plain (view value.now)) }
{
    if value.is_null() {
        return Ok(LiteralValue::Null(plain));
    }
    plain_value(alloc, plain, value)
}

/// The literal of an entry.
#[tactic(auto, unfolding(crate::specs::Exprs::literal_of))]
fn literal(alloc: Global, value: &Value) -> Result<AExpr, Fault>
    ensures { Gives result (literal_of (view value.now)) }
{
    let object = read!(object(value, &["op", "type", "value"]));
    let plain = read!(plain_type(read!(field(object, "type"))));
    let value = read!(literal_value(alloc, plain, read!(field(object, "value"))));
    Ok(AExpr::Literal(value))
}

/// The expression under another name of an entry.
#[tactic(auto, unfolding(crate::specs::Exprs::alias_of))]
fn alias(alloc: Global, value: &Value) -> Result<AExpr, Fault>
    ensures { Gives result (alias_of (view value.now)) }
{
    let object = read!(object(value, &["input", "name", "op"]));
    let input = read!(link_at(object, "input"));
    let name = read!(name_at(alloc, object, "name"));
    Ok(AExpr::Alias(input, name))
}

/// The binary expression of an entry.
#[tactic(auto, unfolding(crate::specs::Exprs::binary_of))]
fn binary(value: &Value) -> Result<AExpr, Fault>
    ensures { Gives result (binary_of (view value.now)) }
{
    let object = read!(object(value, &["left", "op", "operator", "right"]));
    let left = read!(link_at(object, "left"));
    let op = read!(operator(read!(field(object, "operator"))));
    let right = read!(link_at(object, "right"));
    Ok(AExpr::BinaryExpr { left, op, right })
}

/// An object with the keys of a choice.
#[tactic(auto, unfolding(crate::specs::Exprs::ternary_keys))]
fn ternary_object(value: &Value) -> Result<&Value, Fault>
    ensures { Shows (λ v. view v.now) result (object_of ternary_keys (view value.now)) }
{
    object(value, &["falsy", "op", "predicate", "truthy"])
}

/// The choice between two expressions of an entry.
#[tactic(auto, unfolding(crate::specs::Exprs::ternary_of))]
fn ternary(value: &Value) -> Result<AExpr, Fault>
    ensures { Gives result (ternary_of (view value.now)) }
{
    let object = read!(ternary_object(value));
    let predicate = read!(link_at(object, "predicate"));
    let truthy = read!(link_at(object, "truthy"));
    let falsy = read!(link_at(object, "falsy"));
    Ok(AExpr::Ternary {
        predicate,
        truthy,
        falsy,
    })
}

/// The aggregate of a name, of the values of an expression; `CountAll` counts nulls too.
#[tactic(auto, unfolding(crate::specs::Exprs::agg_kind_of, crate::specs::Exprs::agg_named))]
fn agg_kind(input: Node, value: &Value) -> Result<IRAggExpr, Fault>
    ensures { Gives result (agg_kind_of input (view value.now)) }
{
    match read!(text(value)) {
        "Min" => Ok(IRAggExpr::Min(input)),
        "Max" => Ok(IRAggExpr::Max(input)),
        "Sum" => Ok(IRAggExpr::Sum(input)),
        "Count" => Ok(IRAggExpr::Count(input, false)),
        "CountAll" => Ok(IRAggExpr::Count(input, true)),
        "NUnique" => Ok(IRAggExpr::NUnique(input)),
        "First" => Ok(IRAggExpr::First(input)),
        "Last" => Ok(IRAggExpr::Last(input)),
        "Implode" => Ok(IRAggExpr::Implode(input)),
        _ => Err(Fault::Form),
    }
}

/// The aggregate of an entry.
#[tactic(auto, unfolding(crate::specs::Exprs::agg_of))]
fn agg(value: &Value) -> Result<AExpr, Fault>
    ensures { Gives result (agg_of (view value.now)) }
{
    let object = read!(object(value, &["input", "kind", "op"]));
    let input = read!(link_at(object, "input"));
    let agg = read!(agg_kind(input, read!(field(object, "kind"))));
    Ok(AExpr::Agg(agg))
}

/// The function of a name.
#[tactic(auto, unfolding(crate::specs::Exprs::function_name_of, crate::specs::Exprs::function_named))]
fn function_name(value: &Value) -> Result<FunctionExpr, Fault>
    ensures { Gives result (function_name_of (view value.now)) }
{
    match read!(text(value)) {
        "Not" => Ok(FunctionExpr::Not),
        "IsNull" => Ok(FunctionExpr::IsNull),
        "IsNotNull" => Ok(FunctionExpr::IsNotNull),
        "FillNull" => Ok(FunctionExpr::FillNull),
        "Reverse" => Ok(FunctionExpr::Reverse),
        "CumSum" => Ok(FunctionExpr::CumSum),
        _ => Err(Fault::Form),
    }
}

/// The function over inputs of an entry, however many they are, with the options that are its own.
#[tactic(auto, using(plan_doc_parts::proofs::NoneLemmas::bind_none), unfolding(crate::specs::Exprs::function_of))]
fn function(alloc: Global, value: &Value) -> Result<AExpr, Fault>
    ensures { Gives result (function_of (view value.now)) }
{
    let object = read!(object(value, &["inputs", "name", "op"]));
    let function = read!(function_name(read!(field(object, "name"))));
    let input = read!(links_at(alloc, object, "inputs"));
    Ok(AExpr::Function {
        input,
        function,
        options: function.options(),
    })
}

/// The window of an entry, however many its keys are.
#[tactic(auto, unfolding(crate::specs::Exprs::window_of))]
fn window(alloc: Global, value: &Value) -> Result<AExpr, Fault>
    ensures { Gives result (window_of (view value.now)) }
{
    let object = read!(object(value, &["function", "op", "partition_by"]));
    let function = read!(link_at(object, "function"));
    let partition_by = read!(links_at(alloc, object, "partition_by"));
    Ok(AExpr::Window {
        function,
        partition_by,
    })
}

/// The number of rows of an entry.
#[tactic(auto, unfolding(crate::specs::Exprs::len_of))]
fn len(value: &Value) -> Result<AExpr, Fault>
    ensures { Gives result (len_of (view value.now)) }
{
    let _ = read!(object(value, &["op"]));
    Ok(AExpr::Len)
}

/// The expression of an entry, by its `op`. `Form` where the entry is no expression, and `Memory` where memory is
/// short.
#[tactic(auto, unfolding(crate::specs::Exprs::expr_of))]
pub fn expr(alloc: Global, value: &Value) -> Result<AExpr, Fault>
    ensures { Gives result (expr_of (view value.now)) }
{
    match read!(text(read!(field(value, "op")))) {
        "Column" => column_expr(alloc, value),
        "Literal" => literal(alloc, value),
        "Alias" => alias(alloc, value),
        "BinaryExpr" => binary(value),
        "Ternary" => ternary(value),
        "Agg" => agg(value),
        "Function" => function(alloc, value),
        "Window" => window(alloc, value),
        "Len" => len(value),
        _ => Err(Fault::Form),
    }
}
