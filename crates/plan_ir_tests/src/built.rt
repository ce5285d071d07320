//! What is built on the frames of one document: two with the columns a and b of whole numbers and c of texts, and one with a column of
//! lists.

use crate::calls::{Call, made, projected, projected_at};
use crate::read::{Texts, read, texts};
use plan_check::check_plan;
use plan_core::{Node, PolarsResult, Schema};
use plan_ir::PlanCopy;
use plan_text::{write_fault, write_schema};
use std::alloc::{AllocError, Global};
use std::test::Fail;

/// At 0 and at 1 the frame, at 2 the frame of lists, and behind them one node for each call, on the first, on both or on the last.
const PLANS: &str =
    r#"{"root":0,"nodes":[{"op":"DataFrameScan","frame":0,"schema":[["a","Int64"],["b","Int64"],["c","String"]],"output":null},{"op":"DataFrameScan","frame":0,"schema":[["a","Int64"],["b","Int64"],["c","String"]],"output":null},{"op":"DataFrameScan","frame":0,"schema":[["l","List(Int64)"]],"output":null},{"op":"Select","input":0,"exprs":[[0,"alias","z"]],"schema":[["z","Int64"]],"options":[true,true,true]},{"op":"HStack","input":0,"exprs":[[0,"alias","b"]],"schema":[["a","Int64"],["b","Int64"],["c","String"]],"options":[true,true,true]},{"op":"HStack","input":0,"exprs":[[3,"col","c"]],"schema":[["a","Int64"],["b","Int64"],["c","String"]],"options":[true,true,true]},{"op":"MapFunction","input":0,"function":{"RowIndex":{"name":"i","offset":null}}},{"op":"MapFunction","input":0,"function":{"Unpivot":{"on":["b"],"index":["a"],"variable_name":null,"value_name":null}}},{"op":"MapFunction","input":2,"function":{"Explode":{"columns":["l"]}}},{"op":"GroupBy","input":0,"keys":[[0,"alias","a"]],"aggs":[[2,"alias","b"]],"schema":[["a","Int64"],["b","List(Int64)"]],"maintain_order":false,"slice":null},{"op":"Join","left":0,"right":1,"left_on":[[0,"alias","a"]],"right_on":[[1,"alias","a"]],"schema":[["a","Int64"],["b","Int64"],["c","String"],["b_right","Int64"],["c_right","String"]],"how":"Inner","coalesce":"JoinSpecific","suffix":null,"join_nulls":false,"maintain_order":"None","slice":null,"options":null,"parallel":[true,false]}],"exprs":[{"op":"Column","name":"a"},{"op":"Column","name":"a"},{"op":"Column","name":"b"},{"op":"Column","name":"c"}],"flags":0,"shared":false,"tables":null}"#;

/// The columns of the frame.
const FRAME: &str = "{\"schema\":[[\"a\",\"Int64\"],[\"b\",\"Int64\"],[\"c\",\"String\"]]}\n";

/// One column.
const ONE: &str = "{\"schema\":[[\"b\",\"Int64\"]]}\n";

/// Projections of the frame to columns by their names, and what is told of them.
const PROJECTIONS: [(Texts, &str); 5] = [
    (
        &["c", "a"],
        "{\"schema\":[[\"c\",\"String\"],[\"a\",\"Int64\"]]}\n",
    ),
    (&[], FRAME),
    (
        &["a", "d"],
        "{\"error\":{\"kind\":\"SchemaFieldNotFound\",\"node\":null,\"place\":1}}\n",
    ),
    (
        &["a", "a"],
        "{\"error\":{\"kind\":\"Duplicate\",\"node\":null,\"place\":1}}\n",
    ),
    (
        &["a", "a", "d"],
        "{\"error\":{\"kind\":\"SchemaFieldNotFound\",\"node\":null,\"place\":2}}\n",
    ),
];

/// The text of columns, or of a fault.
fn text_of(alloc: Global, answer: &PolarsResult<Schema>) -> Result<String, AllocError> {
    match answer {
        Ok(columns) => write_schema(alloc, columns),
        Err(fault) => write_fault(alloc, fault),
    }
}

/// What is told of a projection of the frame to some columns.
fn told(alloc: Global, names: Texts, plan: &mut PlanCopy) -> Result<String, Fail> {
    let _ = check_plan(alloc, plan.root, &plan.lp, &plan.ex)?;
    let names = texts(alloc, names)?;
    let answer = projected(alloc, names.as_slice(), plan.root, &mut plan.lp, &plan.ex);
    drop(names);
    Ok(text_of(alloc, &answer)?)
}

/// Whether that is told of each projection.
fn are_projected(alloc: Global, plan: &mut PlanCopy) -> Result<bool, Fail> {
    for (names, wanted) in PROJECTIONS {
        if told(alloc, names, plan)?.as_str() != wanted {
            return Ok(false);
        }
    }
    Ok(true)
}

#[test]
fn columns_are_projected_by_their_names(rt: HostRuntime) -> Result<(), Fail> {
    let mut plan = read(rt.alloc(), PLANS)?;
    let is_so = are_projected(rt.alloc(), &mut plan)?;
    drop(plan);
    assert!(rt; is_so);
    Ok(())
}

/// Whether the columns have this text.
fn has_text(alloc: Global, columns: &Schema, wanted: &str) -> Result<bool, AllocError> {
    let text = write_schema(alloc, columns)?;
    Ok(text.as_str() == wanted)
}

/// The columns once the column b of the frame is projected by its number.
fn b_projected(alloc: Global, plan: &mut PlanCopy) -> PolarsResult<Schema> {
    let _ = check_plan(alloc, plan.root, &plan.lp, &plan.ex)?;
    projected_at(alloc, Node(2), plan.root, &mut plan.lp, &plan.ex)
}

/// Whether these are the column b.
fn is_b_projected(alloc: Global, plan: &mut PlanCopy) -> Result<bool, Fail> {
    let columns = b_projected(alloc, plan)?;
    Ok(has_text(alloc, &columns, ONE)?)
}

#[test]
fn columns_are_projected_by_their_numbers(rt: HostRuntime) -> Result<(), Fail> {
    let mut plan = read(rt.alloc(), PLANS)?;
    let is_so = is_b_projected(rt.alloc(), &mut plan)?;
    drop(plan);
    assert!(rt; is_so);
    Ok(())
}

/// Calls that put a node on what stands below that of a number, and the columns that there are then.
const CALLS: [(Call, usize, &str); 9] = [
    (Call::Slice, 0, FRAME),
    (Call::Select, 3, "{\"schema\":[[\"z\",\"Int64\"]]}\n"),
    (Call::Add, 4, FRAME),
    (Call::AddByItself, 5, FRAME),
    (Call::Function, 6, NUMBERED),
    (Call::Function, 7, UNPIVOTED),
    (Call::Function, 8, "{\"schema\":[[\"l\",\"Int64\"]]}\n"),
    (Call::Group, 9, GROUPED),
    (Call::Join, 10, JOINED),
];

/// Row numbers are a first column.
const NUMBERED: &str =
    "{\"schema\":[[\"i\",\"Int64\"],[\"a\",\"Int64\"],[\"b\",\"Int64\"],[\"c\",\"String\"]]}\n";

/// The columns that stay, the names and the values.
const UNPIVOTED: &str =
    "{\"schema\":[[\"a\",\"Int64\"],[\"variable\",\"String\"],[\"value\",\"Int64\"]]}\n";

/// The keys, and lists of what isn't a scalar.
const GROUPED: &str = "{\"schema\":[[\"a\",\"Int64\"],[\"b\",\"List(Int64)\"]]}\n";

/// The columns of both sides, those of the right one under names of their own.
const JOINED: &str =
    "{\"schema\":[[\"a\",\"Int64\"],[\"b\",\"Int64\"],[\"c\",\"String\"],[\"b_right\",\"Int64\"],[\"c_right\",\"String\"]]}\n";

/// Whether a call makes the columns with this text.
fn is_made(
    alloc: Global,
    call: Call,
    root: Node,
    plan: &mut PlanCopy,
    wanted: &str,
) -> Result<bool, Fail> {
    let _ = check_plan(alloc, root, &plan.lp, &plan.ex)?;
    let columns = made(alloc, call, root, &mut plan.lp, &plan.ex)?;
    Ok(has_text(alloc, &columns, wanted)?)
}

/// Whether the calls make the columns that are told.
fn are_made(alloc: Global, plan: &mut PlanCopy) -> Result<bool, Fail> {
    for (call, number, wanted) in CALLS {
        if !is_made(alloc, call, Node(number), plan, wanted)? {
            return Ok(false);
        }
    }
    Ok(true)
}

#[test]
fn nodes_have_their_columns(rt: HostRuntime) -> Result<(), Fail> {
    let mut plan = read(rt.alloc(), PLANS)?;
    let is_so = are_made(rt.alloc(), &mut plan)?;
    drop(plan);
    assert!(rt; is_so);
    Ok(())
}
