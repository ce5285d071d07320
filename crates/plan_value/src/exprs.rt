//! The values of expressions over the rows of a table.
ghost use Rattle.std.specs.Prelude.{◌≡◌, ◌∷◌, [], All, IfOk, map, replicate};
ghost use Rattle.plan_expr.specs.Operands.{IsExpr};
ghost use Rattle.plan_expr.specs.Exprs.{expr_at};
ghost use Rattle.plan_frame.specs.Aggregates.{aggregated as aggregated_of};
ghost use Rattle.plan_frame.specs.Frames.{column_or, rows_at as rows_of};
ghost use Rattle.plan_frame.specs.Meaning.{called, cell_values, chosen as chosen_of, filled as filled_with, literal_value, many, one, only_value as only_value_of, operated as operated_of, spread as spread_of, val, value_at as value_of_row, windowed};
ghost use Rattle.plan_frame.specs.Values.{is_true as true_value};
ghost use Rattle.plan_value.specs.Cells.{cell_of, cells_at, cells_of};
ghost use Rattle.plan_value.specs.Groups.{own_at};
ghost use Rattle.plan_value.specs.Shown.{frame_of, value_of, values_of};

use crate::aggregates::{aggregated, counted};
use crate::choices::chosen;
use crate::functions::{called_on, called_on_two};
use crate::groups::{grouped, rows_of_groups};
use crate::rows::{picked, rows_of_columns};
use crate::spread::{Pairing, spread_by};
use plan_core::{Arena, Items, Node, TryClone};
use plan_expr::{AExpr, Aggregate, FunctionExpr, LiteralValue, Operator, aexpr_to_leaf_names};
use plan_table::{AnyValue, Table};
use std::alloc::{AllocError, Global};

/// The values of an expression.
#[derive(Drop)]
pub enum Values {
    /// One value, the same for every row.
    One(AnyValue),
    /// A value for each row, from the first one on.
    Many(Items<AnyValue>),
}

/// The value of a literal.
fn literal(alloc: Global, value: &LiteralValue) -> Result<AnyValue, AllocError>
    ensures { IfOk result (λ v. value_of v ≡ literal_value value.now) }
{
    match value {
        LiteralValue::Null(_) => Ok(AnyValue::Null),
        LiteralValue::Int64(number) => Ok(AnyValue::Int64(*number)),
        LiteralValue::String(text) => Ok(AnyValue::String(text.try_clone(alloc)?)),
        LiteralValue::Boolean(truth) => Ok(AnyValue::Boolean(*truth)),
    }
}

/// The same value in each of so many rows.
fn repeated(alloc: Global, value: &AnyValue, height: usize) -> Result<Items<AnyValue>, AllocError>
    ensures { IfOk result (λ vs. values_of vs ≡ replicate height (value_of value.now)) }
{
    let mut values = Items::new(alloc);
    for _ in 0..height {
        values.push(value.try_clone(alloc)?)?;
    }
    Ok(values)
}

/// The value of a literal, the same for every row.
fn literal_values(alloc: Global, value: &LiteralValue) -> Result<Values, AllocError>
    ensures { IfOk result (λ vs. cell_of vs ≡ one (literal_value value.now)) }
{
    Ok(Values::One(literal(alloc, value)?))
}

/// The values of the column of a name, one for each row.
fn column_values(alloc: Global, table: &Table, name: &str) -> Result<Values, AllocError>
    ensures { IfOk result (λ vs. cell_of vs ≡ many (column_or (frame_of table.now) name.now)) }
{
    Ok(Values::Many(column(alloc, table, name)?))
}

/// The values of the column of a name; null in each row where there is none. Refuses for want of memory alone.
pub fn column(alloc: Global, table: &Table, name: &str) -> Result<Items<AnyValue>, AllocError>
    ensures { IfOk result (λ vs. values_of vs ≡ column_or (frame_of table.now) name.now) }
{
    match table.columns.get(name) {
        Some(column) => Ok(column.values.try_clone(alloc)?),
        None => Ok(repeated(alloc, &AnyValue::Null, table.height)?),
    }
}

/// The values as a column of so many rows: one value stands in each of these, and a value for each row stays as it is.
/// Refuses for want of memory alone.
pub fn filled(alloc: Global, values: Values, height: usize) -> Result<Items<AnyValue>, AllocError>
    ensures { IfOk result (λ vs. values_of vs ≡ filled_with height (cell_of values)) }
{
    match values {
        Values::One(value) => repeated(alloc, &value, height),
        Values::Many(values) => Ok(values),
    }
}

/// Whether a value is the truth value true.
fn is_true(value: &AnyValue) -> bool
    ensures { result ≡ true_value (value_of value.now) }
{
    matches!(value, AnyValue::Boolean(true))
}

/// Whether the value in a row is true: not where it is null, and not where there is no such row.
pub fn is_true_at(values: &Values, row: usize) -> bool
    ensures { result ≡ true_value (value_of_row (cell_of values.now) row) }
{
    match values {
        Values::One(value) => is_true(value),
        Values::Many(values) => match values.as_slice().get(row) {
            Some(value) => is_true(value),
            None => false,
        },
    }
}

/// The value in a row, which is the one value in every row; null where there is no such row. Refuses for want of memory
/// alone.
pub fn value_at(alloc: Global, values: &Values, row: usize) -> Result<AnyValue, AllocError>
    ensures own { IfOk result (λ v. v ≡ own_at row values.now) }
    ensures shown { IfOk result (λ v. value_of v ≡ value_of_row (cell_of values.now) row) }
{
    match values {
        Values::One(value) => Ok(value.try_clone(alloc)?),
        Values::Many(values) => match values.as_slice().get(row) {
            Some(value) => Ok(value.try_clone(alloc)?),
            None => Ok(AnyValue::Null),
        },
    }
}

/// What an operator gives for two sides: one value spread beside many.
fn spread(alloc: Global, op: Operator, left: Values, right: Values) -> Result<Values, AllocError>
    ensures { IfOk result (λ vs. cell_of vs ≡ spread_of (operated_of op) (cell_of left) (cell_of right)) }
{
    spread_by(alloc, Pairing::Operator(op), left, right)
}

/// The one value; null where there is one for each row.
pub fn only_value(values: Values) -> AnyValue
    ensures { value_of result ≡ only_value_of (cell_of values) }
{
    match values {
        Values::One(value) => value,
        Values::Many(_) => AnyValue::Null,
    }
}

/// What an aggregate makes of all values.
pub fn aggregate(
    alloc: Global,
    aggregate: Aggregate,
    values: &Values,
) -> Result<AnyValue, AllocError>
    ensures { IfOk result (λ v. value_of v ≡ aggregated_of aggregate (cell_values (cell_of values.now))) }
{
    match values {
        Values::One(value) => aggregated(alloc, aggregate, std::slice::from_ref(value)),
        Values::Many(values) => aggregated(alloc, aggregate, values.as_slice()),
    }
}

/// What an aggregate makes of all values, the same for every row.
fn aggregate_values(alloc: Global, agg: Aggregate, values: &Values) -> Result<Values, AllocError>
    ensures { IfOk result (λ vs. cell_of vs ≡ one (aggregated_of agg (cell_values (cell_of values.now)))) }
{
    Ok(Values::One(aggregate(alloc, agg, values)?))
}

/// The values of an expression over the rows of a table: one value where its meaning is one, else one for each row. A
/// column that the table lacks is null in each row. Refuses for want of memory alone.
#[cycle(evaluation)]
pub fn evaluate_expr(
    alloc: Global,
    node: Node,
    ex: &Arena<AExpr>,
    table: &Table,
) -> Result<Values, AllocError>
    requires { IsExpr ex.now node }
    ensures { IfOk result (λ vs. cell_of vs ≡ val (expr_at ex.now node) (frame_of table.now)) }
{
    match ex.get(node) {
        AExpr::Column(name) => column_values(alloc, table, name.as_str()),
        AExpr::Literal(value) => literal_values(alloc, value),
        AExpr::Alias(input, _) => evaluate_expr(alloc, *input, ex, table),
        AExpr::BinaryExpr { left, op, right } => {
            let left = evaluate_expr(alloc, *left, ex, table)?;
            let right = evaluate_expr(alloc, *right, ex, table)?;
            spread(alloc, *op, left, right)
        }
        AExpr::Ternary {
            predicate,
            truthy,
            falsy,
        } => choice(alloc, *truthy, *falsy, *predicate, ex, table),
        AExpr::Agg(agg) => {
            let input = evaluate_expr(alloc, agg.input(), ex, table)?;
            let values = aggregate_values(alloc, agg.aggregate(), &input);
            drop(input);
            values
        }
        AExpr::Function {
            input,
            function,
            ..
        } => call(alloc, *function, input.as_slice(), ex, table),
        AExpr::Window {
            function,
            partition_by,
        } => window(alloc, *function, partition_by.as_slice(), ex, table),
        AExpr::Len => Ok(Values::One(counted(table.height))),
    }
}

/// In each row the value of the first expression where the third one is true, else of the second.
#[cycle(evaluation)]
fn choice(
    alloc: Global,
    truthy: Node,
    falsy: Node,
    predicate: Node,
    ex: &Arena<AExpr>,
    table: &Table,
) -> Result<Values, AllocError>
    requires { All (IsExpr ex.now) (truthy ∷ falsy ∷ predicate ∷ []) }
    ensures { IfOk result (λ vs. cell_of vs ≡ chosen_of table.now.height (val (expr_at ex.now truthy) (frame_of table.now)) (val (expr_at ex.now falsy) (frame_of table.now)) (val (expr_at ex.now predicate) (frame_of table.now))) }
{
    let truthy = evaluate_expr(alloc, truthy, ex, table)?;
    let falsy = evaluate_expr(alloc, falsy, ex, table)?;
    let predicate = evaluate_expr(alloc, predicate, ex, table)?;
    let values = chosen(alloc, table.height, &truthy, &falsy, &predicate);
    drop(truthy);
    drop(falsy);
    drop(predicate);
    values
}

/// What a function makes of the values of its inputs; null where it doesn't take so many.
#[cycle(evaluation)]
fn call(
    alloc: Global,
    function: FunctionExpr,
    inputs: &[Node],
    ex: &Arena<AExpr>,
    table: &Table,
) -> Result<Values, AllocError>
    requires { All (IsExpr ex.now) inputs.now }
    ensures { IfOk result (λ vs. cell_of vs ≡ called function (cells_at ex.now inputs.now (frame_of table.now))) }
{
    match inputs {
        [] => Ok(Values::One(AnyValue::Null)),
        [input] => {
            let input = evaluate_expr(alloc, *input, ex, table)?;
            called_on(alloc, function, input)
        }
        [first, second] => {
            let first = evaluate_expr(alloc, *first, ex, table)?;
            let second = evaluate_expr(alloc, *second, ex, table)?;
            called_on_two(alloc, function, first, second)
        }
        _ => Ok(Values::One(AnyValue::Null)),
    }
}

/// The values of each of several expressions, in order.
#[cycle(evaluation)]
fn evaluate_all(
    alloc: Global,
    nodes: &[Node],
    ex: &Arena<AExpr>,
    table: &Table,
) -> Result<Items<Values>, AllocError>
    requires { All (IsExpr ex.now) nodes.now }
    ensures { IfOk result (λ vs. cells_of vs ≡ cells_at ex.now nodes.now (frame_of table.now)) }
{
    let mut all = Items::new(alloc);
    for node in nodes {
        all.push(evaluate_expr(alloc, *node, ex, table)?)?;
    }
    Ok(all)
}

/// The one value of an expression over each of several lists of rows of a table; null where it has one for each row.
#[cycle(evaluation)]
fn evaluate_over(
    alloc: Global,
    node: Node,
    ex: &Arena<AExpr>,
    table: &Table,
    parts: &[Items<usize>],
) -> Result<Items<AnyValue>, AllocError>
    requires { IsExpr ex.now node }
    ensures { IfOk result (λ vs. values_of vs ≡ map (λ rows. only_value_of (val (expr_at ex.now node) (rows_of rows (frame_of table.now)))) parts.now) }
{
    let names = aexpr_to_leaf_names(alloc, node, ex)?;
    let mut values = Items::new(alloc);
    for rows in parts {
        let part = rows_of_columns(alloc, table, rows.as_slice(), names.as_slice())?;
        values.push(only_value(evaluate_expr(alloc, node, ex, &part)?))?;
    }
    Ok(values)
}

/// For each row of a table, the one value of an expression over the rows that have the same keys.
#[cycle(evaluation)]
fn window(
    alloc: Global,
    function: Node,
    keys: &[Node],
    ex: &Arena<AExpr>,
    table: &Table,
) -> Result<Values, AllocError>
    requires function { IsExpr ex.now function }
    requires keys { All (IsExpr ex.now) keys.now }
    ensures { IfOk result (λ vs. cell_of vs ≡ windowed (val (expr_at ex.now function)) (cells_at ex.now keys.now (frame_of table.now)) (frame_of table.now)) }
{
    let keys = evaluate_all(alloc, keys, ex, table)?;
    let groups = grouped(alloc, keys.as_slice(), table.height)?;
    let parts = rows_of_groups(alloc, &groups)?;
    let values = evaluate_over(alloc, function, ex, table, parts.as_slice())?;
    Ok(Values::Many(picked(alloc, values.as_slice(), groups.numbers.as_slice())?))
}
