//! Walks, names, mappings and copies of small expressions in boxes. Each answer is made by functions that own one expression at the most.
use crate::made::{boxed, column, item, named, sum};
use plan_core::{Items, PlSmallStr, PlainType, PolarsError, PolarsResult, TryClone, UnitVec};
use plan_dsl::{
    Expr, ExprMapper, FunctionExpr, RewritingVisitor, expr_output_name, expr_to_leaf_column_name,
    expr_to_leaf_column_names, expr_to_leaf_column_names_iter, has_expr, has_null,
};
use plan_expr::LiteralValue;
use std::alloc::{AllocError, Global};

/// The name of a column, and a mark for any other expression.
fn mark(expr: &Expr) -> &str {
    match expr {
        Expr::Column(name) => name.as_str(),
        _ => "+",
    }
}

/// The marks of a walk.
fn walked(alloc: Global, expr: &Expr) -> Result<String, AllocError> {
    let mut text = String::new(alloc);
    for met in expr.iter(alloc)? {
        text.push_str(mark(met))?;
    }
    Ok(text)
}

/// The marks of expressions that are lent.
fn marks(alloc: Global, exprs: &[&Expr]) -> Result<String, AllocError> {
    let mut text = String::new(alloc);
    for expr in exprs {
        text.push_str(mark(*expr))?;
    }
    Ok(text)
}

/// The marks of what stands directly below, as it is lent.
fn below(alloc: Global, expr: &Expr) -> Result<String, AllocError> {
    let mut container = UnitVec::new(alloc);
    expr.nodes(alloc, &mut container)?;
    marks(alloc, container.as_slice())
}

/// The names of the leaves, and again of a walk over them.
fn leaves(alloc: Global, expr: &Expr) -> Result<String, AllocError> {
    let mut text = String::new(alloc);
    for name in expr_to_leaf_column_names_iter(alloc, expr)? {
        text.push_str(name.as_str())?;
    }
    Ok(text)
}

/// The names of the leaves, as they are listed.
fn listed(alloc: Global, expr: &Expr) -> Result<String, AllocError> {
    let names = expr_to_leaf_column_names(alloc, expr)?;
    let mut text = String::new(alloc);
    for name in names.as_slice() {
        text.push_str(name.as_str())?;
    }
    Ok(text)
}

/// The expressions that are asked.
#[derive(Clone, Copy)]
enum Kind {
    /// The sum of a and b.
    Sum,
    /// The sum of a and a.
    Twice,
    /// The column a under the name x.
    Alias,
    /// The column a, which keeps its name.
    Kept,
    /// A null, taken apart.
    Null,
    /// The number of rows.
    Len,
    /// A whole number.
    Literal,
    /// Not of the sum of a and b.
    Function,
}

/// What an expression tells.
struct Told {
    /// The expression.
    kind: Kind,
    /// The marks of a walk.
    walk: &'static str,
    /// The marks of what stands directly below.
    below: &'static str,
    /// Whether it has a column, a number of rows, and a null.
    found: [bool; 3],
    /// Its output name, if it isn't refused.
    name: Option<&'static str>,
    /// The name of its one leaf, if it isn't refused.
    leaf: Option<&'static str>,
    /// The names of the leaves, one after another.
    leaves: &'static str,
}

/// Whether a walk has these marks.
fn has_walk(alloc: Global, expr: &Expr, wanted: &str) -> Result<bool, AllocError> {
    Ok(walked(alloc, expr)?.as_str() == wanted)
}

/// Whether these marks stand directly below.
fn has_below(alloc: Global, expr: &Expr, wanted: &str) -> Result<bool, AllocError> {
    Ok(below(alloc, expr)?.as_str() == wanted)
}

/// Whether a walk over the leaves has these names.
fn has_leaves(alloc: Global, expr: &Expr, wanted: &str) -> Result<bool, AllocError> {
    Ok(leaves(alloc, expr)?.as_str() == wanted)
}

/// Whether the leaves are listed by these names.
fn lists_leaves(alloc: Global, expr: &Expr, wanted: &str) -> Result<bool, AllocError> {
    Ok(listed(alloc, expr)?.as_str() == wanted)
}

/// Whether an expression is its copy.
fn is_copied(alloc: Global, expr: &Expr) -> Result<bool, AllocError> {
    let copy = expr.try_clone(alloc)?;
    let is_same = copy == *expr;
    drop(copy);
    Ok(is_same)
}

/// Whether an expression has a column, a number of rows, and a null.
fn found(expr: &Expr) -> [bool; 3] {
    [
        has_expr(expr, |e: &Expr| matches!(e, Expr::Column(_))),
        has_expr(expr, |e: &Expr| matches!(e, Expr::Len)),
        has_null(expr),
    ]
}

/// Whether this is the name, or the fault of the first item where there is none.
fn is_name(name: &PolarsResult<PlSmallStr>, wanted: Option<&str>) -> bool {
    match name {
        Ok(name) => Some(name.as_str()) == wanted,
        Err(error) => wanted.is_none() && *error == PolarsError::ComputeError(item(0)),
    }
}

/// Whether an expression has this output name.
fn has_name(alloc: Global, expr: &Expr, wanted: Option<&str>) -> bool {
    let name = expr_output_name(alloc, expr);
    is_name(&name, wanted)
}

/// Whether an expression has one leaf, of this name.
fn has_leaf(alloc: Global, expr: &Expr, wanted: Option<&str>) -> bool {
    let name = expr_to_leaf_column_name(alloc, expr);
    is_name(&name, wanted)
}

/// Whether an expression tells each of this, and is its copy.
fn answers(alloc: Global, expr: &Expr, told: &Told) -> Result<[bool; 8], AllocError> {
    Ok([
        has_walk(alloc, expr, told.walk)?,
        has_below(alloc, expr, told.below)?,
        has_leaves(alloc, expr, told.leaves)?,
        lists_leaves(alloc, expr, told.leaves)?,
        is_copied(alloc, expr)?,
        found(expr) == told.found,
        has_name(alloc, expr, told.name),
        has_leaf(alloc, expr, told.leaf),
    ])
}

/// The column a under the name x.
fn alias(alloc: Global) -> Result<Expr, AllocError> {
    named(alloc, column(alloc, "a")?, "x")
}

/// The column a, which keeps its name.
fn kept(alloc: Global) -> Result<Expr, AllocError> {
    Ok(Expr::KeepName(boxed(alloc, "a")?))
}

/// A null, taken apart.
fn null(alloc: Global) -> Result<Expr, AllocError> {
    let null = Box::new(alloc, Expr::Literal(LiteralValue::Null(PlainType::Int64)))?;
    Ok(Expr::Explode(null))
}

/// Not of the sum of two columns.
fn function(alloc: Global) -> Result<Expr, AllocError> {
    let function = FunctionExpr::Not;
    let options = function.options();
    let mut input = Vec::new(alloc);
    input.push(sum(alloc, "a", "b")?)?;
    Ok(Expr::Function {
        input,
        function,
        options,
    })
}

/// No columns.
fn no_columns(alloc: Global) -> Expr {
    let none: Items<PlSmallStr> = Items::new(alloc);
    Expr::Columns(none)
}

/// Whether no columns are their copy.
fn no_columns_are_copied(alloc: Global) -> Result<bool, AllocError> {
    let none = no_columns(alloc);
    let found = is_copied(alloc, &none);
    drop(none);
    found
}

const TOLD: &[Told] = &[
    Told {
        kind: Kind::Sum,
        walk: "+ab",
        below: "ba",
        found: [true, false, false],
        name: Some("a"),
        leaf: None,
        leaves: "ab",
    },
    Told {
        kind: Kind::Twice,
        walk: "+aa",
        below: "aa",
        found: [true, false, false],
        name: Some("a"),
        leaf: None,
        leaves: "aa",
    },
    Told {
        kind: Kind::Alias,
        walk: "+a",
        below: "a",
        found: [true, false, false],
        name: Some("x"),
        leaf: Some("a"),
        leaves: "a",
    },
    Told {
        kind: Kind::Kept,
        walk: "+a",
        below: "a",
        found: [true, false, false],
        name: None,
        leaf: Some("a"),
        leaves: "a",
    },
    Told {
        kind: Kind::Null,
        walk: "++",
        below: "+",
        found: [false, false, true],
        name: Some("literal"),
        leaf: None,
        leaves: "",
    },
    Told {
        kind: Kind::Len,
        walk: "+",
        below: "",
        found: [false, true, false],
        name: Some("len"),
        leaf: None,
        leaves: "",
    },
    Told {
        kind: Kind::Literal,
        walk: "+",
        below: "",
        found: [false, false, false],
        name: Some("literal"),
        leaf: None,
        leaves: "",
    },
    Told {
        kind: Kind::Function,
        walk: "++ab",
        below: "+",
        found: [true, false, false],
        name: Some("a"),
        leaf: None,
        leaves: "ab",
    },
];

/// The expression of a kind.
fn made(alloc: Global, kind: Kind) -> Result<Expr, AllocError> {
    match kind {
        Kind::Sum => sum(alloc, "a", "b"),
        Kind::Twice => sum(alloc, "a", "a"),
        Kind::Alias => alias(alloc),
        Kind::Kept => kept(alloc),
        Kind::Null => null(alloc),
        Kind::Len => Ok(Expr::Len),
        Kind::Literal => Ok(Expr::Literal(LiteralValue::Int64(1))),
        Kind::Function => function(alloc),
    }
}

/// Whether an expression tells what it should.
fn is_told(alloc: Global, told: &Told) -> Result<bool, AllocError> {
    let expr = made(alloc, told.kind)?;
    let found = answers(alloc, &expr, told);
    drop(expr);
    Ok(found? == [true; 8])
}

/// The place of the first expression that tells something else.
fn other(alloc: Global) -> Result<Option<usize>, AllocError> {
    for (place, told) in TOLD.iter().enumerate() {
        if !is_told(alloc, told)? {
            return Ok(Some(place));
        }
    }
    Ok(None)
}

/// The last expression directly below, as it is given away.
fn popped(alloc: Global, expr: Expr) -> Result<Option<Expr>, AllocError> {
    let mut container = UnitVec::new(alloc);
    expr.nodes_owned(alloc, &mut container)?;
    Ok(container.pop())
}

/// What an alias gives away.
fn given(alloc: Global) -> Result<Option<Expr>, AllocError> {
    popped(alloc, alias(alloc)?)
}

/// Whether this is the column a.
fn is_a(given: Option<&Expr>) -> bool {
    match given {
        Some(expr) => mark(expr) == "a",
        None => false,
    }
}

/// Whether an alias gives the column a away.
fn alias_gives_a(alloc: Global) -> Result<bool, AllocError> {
    let given = given(alloc)?;
    let is_a = is_a(given.as_ref());
    drop(given);
    Ok(is_a)
}

/// What a column a becomes; all else is refused.
fn replacement(alloc: Global, expr: &Expr) -> PolarsResult<Expr> {
    match mark(expr) {
        "a" => Ok(column(alloc, "z")?),
        _ => Err(PolarsError::ComputeError(item(7))),
    }
}

/// A column a becomes z, and a column b is refused; all else stays.
fn as_z(alloc: Global, expr: Expr) -> PolarsResult<Expr> {
    if !matches!(mark(&expr), "a" | "b") {
        return Ok(expr);
    }
    let other = replacement(alloc, &expr);
    drop(expr);
    other
}

/// The sum of a and another column in which a becomes z, if that isn't b.
fn with_z(alloc: Global, other: &str) -> PolarsResult<Expr> {
    sum(alloc, "a", other)?.try_map_expr(alloc, |e: Expr| as_z(alloc, e))
}

/// Whether the sum of a and c becomes that of z and c.
fn is_with_z(alloc: Global) -> PolarsResult<bool> {
    let mapped = with_z(alloc, "c")?;
    let found = has_walk(alloc, &mapped, "+zc");
    drop(mapped);
    Ok(found?)
}

/// Whether the sum of a and b is refused.
fn is_refused(alloc: Global) -> bool {
    with_z(alloc, "b").err() == Some(PolarsError::ComputeError(item(7)))
}

/// A column a becomes what is held, once; all else stays.
fn exchanged(expr: Expr, held: &mut Option<Expr>) -> Expr {
    if mark(&expr) != "a" || held.is_none() {
        return expr;
    }
    drop(expr);
    held.take().unwrap_or(Expr::Len)
}

/// An expression in which one column a has become what is held.
fn exchange(alloc: Global, expr: Expr, held: &mut Option<Expr>) -> Result<Expr, AllocError> {
    expr.map_expr(alloc, |e: Expr| exchanged(e, held))
}

/// Whether the sum of a and another column has these marks after that.
fn has_exchanged(
    alloc: Global,
    other: &str,
    held: &mut Option<Expr>,
    wanted: &str,
) -> Result<bool, AllocError> {
    let expr = exchange(alloc, sum(alloc, "a", other)?, held)?;
    let found = has_walk(alloc, &expr, wanted);
    drop(expr);
    found
}

/// The same where z is held.
fn is_exchanged(alloc: Global, other: &str, wanted: &str) -> Result<bool, AllocError> {
    let mut held = Some(column(alloc, "z")?);
    let found = has_exchanged(alloc, other, &mut held, wanted);
    drop(held);
    found
}

/// A number of rows, once a visitor that changes nothing was there.
fn left() -> PolarsResult<Expr> {
    let mut mapper = ExprMapper::new(|e: Expr| -> PolarsResult<Expr> { Ok(e) });
    mapper.mutate(Expr::Len)
}

/// Whether a visitor that changes nothing leaves a number of rows.
fn is_left() -> PolarsResult<bool> {
    let left = left()?;
    let is_len = matches!(&left, Expr::Len);
    drop(left);
    Ok(is_len)
}

/// Whether expressions are given away and mapped as they should be.
fn mappings(alloc: Global) -> PolarsResult<[bool; 6]> {
    Ok([
        alias_gives_a(alloc)?,
        is_with_z(alloc)?,
        is_refused(alloc),
        is_exchanged(alloc, "b", "+zb")?,
        is_exchanged(alloc, "a", "+za")?,
        is_left()?,
    ])
}

#[test]
fn boxes_answer(rt: HostRuntime) {
    assert!(rt; other(rt.alloc()) == Ok(None));
    assert!(rt; no_columns_are_copied(rt.alloc()) == Ok(true));
    assert!(rt; mappings(rt.alloc()) == Ok([true; 6]));
}
