//! The entries of the objects of expressions, each kind's in a function of its own: keys in byte order, with what stands
//! there.
ghost use Rattle.std.specs.Prelude.{◌≡◌, IfOk};
ghost use Rattle.plan_expr.specs.declared.aexpr.AExpr.TheVariants.{Agg, Alias, BinaryExpr, Column, Function, Literal, Ternary, Window};
ghost use Rattle.plan_text_pieces.specs.Pieces.{piece_data, Tells};
ghost use Rattle.plan_text.specs.Exprs.{expr_data, literal_data};

use plan_core::{Items, Node, PlSmallStr};
use plan_expr::{AExpr, FunctionExpr, IRAggExpr, LiteralValue, Operator};
use plan_options::FunctionOptions;
use plan_text_pieces::{Entries, Piece, agg_name, function_name, literal_type, operator_name};
use std::alloc::{AllocError, Global};

/// The value of a literal: null, a number, a text or a truth value.
fn literal(value: &LiteralValue) -> Piece<'_>
    ensures { piece_data result ≡ literal_data value.now }
{
    match value {
        LiteralValue::Null(_) => Piece::Null,
        LiteralValue::Int64(number) => Piece::Integer(*number),
        LiteralValue::String(text) => Piece::Text(text.as_str()),
        LiteralValue::Boolean(truth) => Piece::Boolean(*truth),
    }
}

/// The entries of a column.
#[tactic(auto, unfolding(crate::specs::Exprs::expr_data))]
fn column<'a>(alloc: Global, name: &'a PlSmallStr) -> Result<Entries<'a>, AllocError>
    ensures { IfOk result (λ es. Tells es.items (expr_data (Column name.now))) }
{
    Vec::from_slice(
        alloc,
        &[
            ("name", Piece::Text(name.as_str())),
            ("op", Piece::Text("Column")),
        ],
    )
}

/// The entries of a literal.
#[tactic(auto, unfolding(crate::specs::Exprs::expr_data))]
fn literal_value<'a>(alloc: Global, given: &'a LiteralValue) -> Result<Entries<'a>, AllocError>
    ensures { IfOk result (λ es. Tells es.items (expr_data (Literal given.now))) }
{
    Vec::from_slice(
        alloc,
        &[
            ("op", Piece::Text("Literal")),
            ("type", Piece::Text(literal_type(given))),
            ("value", literal(given)),
        ],
    )
}

/// The entries of an expression under another name.
#[tactic(auto, unfolding(crate::specs::Exprs::expr_data))]
fn alias<'a>(alloc: Global, input: Node, name: &'a PlSmallStr) -> Result<Entries<'a>, AllocError>
    ensures { IfOk result (λ es. Tells es.items (expr_data (Alias input name.now))) }
{
    Vec::from_slice(
        alloc,
        &[
            ("input", Piece::Number(input.0)),
            ("name", Piece::Text(name.as_str())),
            ("op", Piece::Text("Alias")),
        ],
    )
}

/// The entries of a binary expression.
#[tactic(auto, unfolding(crate::specs::Exprs::expr_data))]
fn binary<'a>(
    alloc: Global,
    left: Node,
    op: Operator,
    right: Node,
) -> Result<Entries<'a>, AllocError>
    ensures { IfOk result (λ es. Tells es.items (expr_data (BinaryExpr left op right))) }
{
    let operator: &'a str = operator_name(op);
    Vec::from_slice(
        alloc,
        &[
            ("left", Piece::Number(left.0)),
            ("op", Piece::Text("BinaryExpr")),
            ("operator", Piece::Text(operator)),
            ("right", Piece::Number(right.0)),
        ],
    )
}

/// The entries of a choice.
#[tactic(auto, unfolding(crate::specs::Exprs::expr_data))]
fn ternary<'a>(
    alloc: Global,
    predicate: Node,
    truthy: Node,
    falsy: Node,
) -> Result<Entries<'a>, AllocError>
    ensures { IfOk result (λ es. Tells es.items (expr_data (Ternary predicate truthy falsy))) }
{
    Ok(vec![in alloc;
        ("falsy", Piece::Number(falsy.0)),
        ("op", Piece::Text("Ternary")),
        ("predicate", Piece::Number(predicate.0)),
        ("truthy", Piece::Number(truthy.0)),
    ]?)
}

/// The entries of an aggregate.
#[tactic(auto, unfolding(crate::specs::Exprs::expr_data))]
fn agg<'a>(alloc: Global, given: IRAggExpr) -> Result<Entries<'a>, AllocError>
    ensures { IfOk result (λ es. Tells es.items (expr_data (Agg given))) }
{
    let kind: &'a str = agg_name(given);
    Vec::from_slice(
        alloc,
        &[
            ("input", Piece::Number(given.input().0)),
            ("kind", Piece::Text(kind)),
            ("op", Piece::Text("Agg")),
        ],
    )
}

/// The entries of a function over inputs. Its options are its own, and don't stand in it.
#[tactic(auto, unfolding(crate::specs::Exprs::expr_data))]
fn function<'a>(
    alloc: Global,
    input: &'a Items<Node>,
    given: FunctionExpr,
    options: FunctionOptions,
) -> Result<Entries<'a>, AllocError>
    ensures { IfOk result (λ es. Tells es.items (expr_data (Function input.now given options))) }
{
    Vec::from_slice(
        alloc,
        &[
            ("inputs", Piece::Links(input.as_slice())),
            ("name", Piece::Text(function_name(given))),
            ("op", Piece::Text("Function")),
        ],
    )
}

/// The entries of a window.
#[tactic(auto, unfolding(crate::specs::Exprs::expr_data))]
fn window<'a>(
    alloc: Global,
    function: Node,
    keys: &'a Items<Node>,
) -> Result<Entries<'a>, AllocError>
    ensures { IfOk result (λ es. Tells es.items (expr_data (Window function keys.now))) }
{
    Vec::from_slice(
        alloc,
        &[
            ("function", Piece::Number(function.0)),
            ("op", Piece::Text("Window")),
            ("partition_by", Piece::Links(keys.as_slice())),
        ],
    )
}

/// The entries of an expression: of each kind a row or two.
#[rattlefmt::skip]
#[tactic(auto, unfolding(crate::specs::Exprs::expr_data))]
pub fn expr_entries(alloc: Global, expr: &AExpr) -> Result<Entries<'_>, AllocError>
    ensures { IfOk result (λ es. Tells es.items (expr_data expr.now)) }
{
    match expr {
        AExpr::Column(name) => column(alloc, name),
        AExpr::Literal(given) => literal_value(alloc, given),
        AExpr::Alias(input, name) => alias(alloc, *input, name),
        AExpr::BinaryExpr { left, op, right } => binary(alloc, *left, *op, *right),
        AExpr::Ternary { predicate, truthy, falsy } => ternary(alloc, *predicate, *truthy, *falsy),
        AExpr::Agg(given) => agg(alloc, *given),
        AExpr::Function { input, function: given, options } =>
            function(alloc, input, *given, *options),
        AExpr::Window { function, partition_by } => window(alloc, *function, partition_by),
        AExpr::Len => Ok(vec![in alloc; ("op", Piece::Text("Len"))]?),
    }
}
