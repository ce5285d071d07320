//! The columns of joins, and where they are from.
ghost use Rattle.std.specs.Prelude.{◌≡◌, length, IfOk};

use plan_core::{Arena, DataType, Node, PlSmallStr, PolarsError, Schema};
use plan_expr::{AExpr, ExprIR, OutputName};
use plan_join::{JoinOptions, Side, join_origin, join_schema};
use plan_options::{JoinArgs, JoinCoalesce, JoinType, MaintainOrderJoin};
use plan_samples::schema;
use std::alloc::{AllocError, Global};

/// Columns that are written here.
type Typed = &'static [(&'static str, DataType)];

const A: (&str, DataType) = ("a", DataType::Int64);

const B: (&str, DataType) = ("b", DataType::Int64);

const C: (&str, DataType) = ("c", DataType::Int64);

const B_RIGHT: (&str, DataType) = ("b_right", DataType::Int64);

const C_RIGHT: (&str, DataType) = ("c_right", DataType::Int64);

fn told(how: JoinType) -> JoinOptions {
    JoinOptions {
        allow_parallel: true,
        force_parallel: false,
        args: JoinArgs {
            how,
            coalesce: JoinCoalesce::JoinSpecific,
            suffix: None,
            join_nulls: false,
            maintain_order: MaintainOrderJoin::None,
            slice: None,
        },
        options: None,
    }
}

/// The column a alone.
fn key(alloc: Global) -> Result<Arena<AExpr>, AllocError>
    ensures { IfOk result (λ ex. length ex ≡ 1) }
{
    let mut ex = Arena::new(alloc);
    let name = PlSmallStr::new(alloc, "a")?;
    ex.add(AExpr::Column(name))?;
    Ok(ex)
}

/// Columns that are asked for their origin.
struct Asked {
    /// The columns of the right side.
    right: Typed,
    how: JoinType,
    name: &'static str,
    origin: Option<(Side, usize)>,
}

const ASKED: &[Asked] = &[
    Asked {
        right: &[A, B],
        how: JoinType::Inner,
        name: "b",
        origin: Some((Side::Left, 1)),
    },
    Asked {
        right: &[A, B],
        how: JoinType::Inner,
        name: "b_right",
        origin: Some((Side::Right, 1)),
    },
    Asked {
        right: &[A, B],
        how: JoinType::Inner,
        name: "a_right",
        origin: None,
    },
    Asked {
        right: &[A, B],
        how: JoinType::Right,
        name: "a",
        origin: Some((Side::Right, 0)),
    },
    Asked {
        right: &[B_RIGHT, B],
        how: JoinType::Inner,
        name: "b_right",
        origin: Some((Side::Right, 0)),
    },
];

/// Whether a column of a join of columns on a is from where it should be.
fn is_from(left: &Schema, right: &Schema, ex: &Arena<AExpr>, asked: &Asked) -> bool
    requires { length ex.now ≡ 1 }
{
    let keys = [ExprIR::new(Node(0), OutputName::None)];
    let options = told(asked.how);
    join_origin(left, right, &keys, &keys, &options, ex, asked.name) == asked.origin
}

/// The same of a join of the columns a and b with others.
fn is_from_these(alloc: Global, ex: &Arena<AExpr>, asked: &Asked) -> Result<bool, AllocError>
    requires { length ex.now ≡ 1 }
{
    let left = schema(alloc, &[A, B])?;
    let right = schema(alloc, asked.right)?;
    Ok(is_from(&left, &right, ex, asked))
}

/// Whether all columns are from where they should be.
fn are_from(alloc: Global, ex: &Arena<AExpr>) -> Result<bool, AllocError>
    requires { length ex.now ≡ 1 }
{
    for asked in ASKED {
        if !is_from_these(alloc, ex, asked)? {
            return Ok(false);
        }
    }
    Ok(true)
}

/// The columns that an inner join of two such sides puts out, with a as the key of both.
fn joined(alloc: Global, side: &Schema, ex: &Arena<AExpr>) -> Result<Schema, PolarsError>
    requires { length ex.now ≡ 1 }
{
    let keys = [ExprIR::new(Node(0), OutputName::None)];
    let options = told(JoinType::Inner);
    join_schema(alloc, side, side, &keys, &keys, &options, ex)
}

/// The same of the columns a, b and c.
fn joined_columns(alloc: Global, ex: &Arena<AExpr>) -> Result<Schema, PolarsError>
    requires { length ex.now ≡ 1 }
{
    let side = schema(alloc, &[A, B, C])?;
    joined(alloc, &side, ex)
}

/// Whether these are put out in order.
fn are_in_order(alloc: Global, ex: &Arena<AExpr>) -> Result<bool, PolarsError>
    requires { length ex.now ≡ 1 }
{
    let joined = joined_columns(alloc, ex)?;
    Ok(joined == schema(alloc, &[A, B, C, B_RIGHT, C_RIGHT])?)
}

/// Whether columns are from where they should be, and stand in order.
fn answers(alloc: Global) -> Result<[bool; 2], PolarsError> {
    let ex = key(alloc)?;
    Ok([are_from(alloc, &ex)?, are_in_order(alloc, &ex)?])
}

#[test]
fn joins_name_their_columns(rt: HostRuntime) {
    assert!(rt; answers(rt.alloc()) == Ok([true; 2]));
}
