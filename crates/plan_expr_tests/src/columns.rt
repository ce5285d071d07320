//! The columns that small expressions in boxes make.
use crate::made::{boxed, column, named};
use plan_core::{At, DataType, PlainType, PolarsError, PolarsResult, Schema};
use plan_dsl::{AggExpr, Expr, FunctionExpr};
use plan_dsl_schema::{Context, expressions_to_schema};
use plan_samples::schema;
use std::alloc::{AllocError, Global};

/// What expressions make over a column a of whole numbers.
fn made(alloc: Global, exprs: &[Expr], context: Context) -> PolarsResult<Schema> {
    let columns = schema(alloc, &[("a", DataType::Int64)])?;
    expressions_to_schema(alloc, exprs, &columns, context)
}

/// The sum of the column a under the name s.
fn sum_of_a(alloc: Global) -> Result<Expr, AllocError> {
    let a = boxed(alloc, "a")?;
    named(alloc, Expr::Agg(AggExpr::Sum(a)), "s")
}

/// The column a, and its sum under the name s.
fn a_and_its_sum(alloc: Global) -> Result<Vec<Expr>, AllocError> {
    let mut exprs = columns(alloc, &["a"])?;
    exprs.push(sum_of_a(alloc)?)?;
    Ok(exprs)
}

/// What the column a and its sum make.
fn both_made(alloc: Global, context: Context) -> PolarsResult<Schema> {
    let exprs = a_and_its_sum(alloc)?;
    let found = made(alloc, exprs.as_slice(), context);
    drop(exprs);
    found
}

/// Whether the column a and its sum make columns of these types.
fn are_made(alloc: Global, context: Context, a: DataType) -> PolarsResult<bool> {
    let found = both_made(alloc, context)?;
    let wanted = schema(alloc, &[("a", a), ("s", DataType::Int64)])?;
    Ok(found == wanted)
}

/// Columns.
fn columns(alloc: Global, names: &[&str]) -> Result<Vec<Expr>, AllocError> {
    let mut exprs = Vec::new(alloc);
    for name in names {
        exprs.push(column(alloc, *name)?)?;
    }
    Ok(exprs)
}

/// The function that turns the column a, which is no truth value.
fn negated(alloc: Global) -> Result<Vec<Expr>, AllocError> {
    let function = FunctionExpr::Not;
    let input = columns(alloc, &["a"])?;
    let options = function.options();
    let mut exprs = Vec::new(alloc);
    exprs.push(Expr::Function {
        input,
        function,
        options,
    })?;
    Ok(exprs)
}

/// What has no columns: a column that stands for all.
fn wildcard(alloc: Global) -> Result<Vec<Expr>, AllocError> {
    let mut exprs = columns(alloc, &["a", "a", "d"])?;
    exprs.push(Expr::Wildcard)?;
    Ok(exprs)
}

/// The column a taken apart.
fn exploded(alloc: Global) -> Result<Vec<Expr>, AllocError> {
    let a = boxed(alloc, "a")?;
    let mut exprs = Vec::new(alloc);
    exprs.push(Expr::Explode(a))?;
    Ok(exprs)
}

/// Expressions that are refused.
#[derive(Clone, Copy)]
enum Kind {
    /// The column a, twice.
    Twice,
    /// Columns, of which one stands for all.
    Wildcard,
    /// A column that is absent.
    Absent,
    /// A function of another type.
    Negated,
    /// A column taken apart.
    Exploded,
}

/// Expressions, and why they are refused.
const REFUSED: &[(Kind, PolarsError)] = &[
    (Kind::Twice, PolarsError::Duplicate(SECOND)),
    (Kind::Wildcard, PolarsError::SchemaFieldNotFound(THIRD)),
    (Kind::Absent, PolarsError::SchemaFieldNotFound(FIRST)),
    (Kind::Negated, PolarsError::SchemaMismatch(FIRST)),
    (Kind::Exploded, PolarsError::InvalidOperation(FIRST)),
];

const FIRST: At = At {
    node: None,
    place: 0,
};

const SECOND: At = At {
    node: None,
    place: 1,
};

const THIRD: At = At {
    node: None,
    place: 2,
};

/// The expressions of a kind.
fn given(alloc: Global, kind: Kind) -> Result<Vec<Expr>, AllocError> {
    match kind {
        Kind::Twice => columns(alloc, &["a", "a"]),
        Kind::Wildcard => wildcard(alloc),
        Kind::Absent => columns(alloc, &["d"]),
        Kind::Negated => negated(alloc),
        Kind::Exploded => exploded(alloc),
    }
}

/// Why they make no columns.
fn refused(alloc: Global, kind: Kind) -> Result<Option<PolarsError>, AllocError> {
    let exprs = given(alloc, kind)?;
    Ok(made(alloc, exprs.as_slice(), Context::Default).err())
}

/// The place of the first expressions that are refused otherwise.
fn other(alloc: Global) -> Result<Option<usize>, AllocError> {
    for place in 0..REFUSED.len() {
        if refused(alloc, REFUSED[place].0)? != Some(REFUSED[place].1) {
            return Ok(Some(place));
        }
    }
    Ok(None)
}

#[test]
fn expressions_make_columns(rt: HostRuntime) {
    let lists = DataType::List(PlainType::Int64);
    assert!(rt; are_made(rt.alloc(), Context::Default, DataType::Int64) == Ok(true));
    assert!(rt; are_made(rt.alloc(), Context::Aggregation, lists) == Ok(true));
    assert!(rt; other(rt.alloc()) == Ok(None));
}
