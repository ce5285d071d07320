//! What a pass leaves of a plan that is told beforehand that rows are counted, and the text of that plan.

use crate::read::read;
use plan_check::check_plan;
use plan_core::{Arena, Node};
use plan_expr::AExpr;
use plan_ir::IR;
use plan_prune::ProjectionPushDown;
use plan_text::write_plan;
use std::alloc::Global;
use std::test::Fail;

/// A projection to a over a filter b > 1 over a scan of a, b and c.
const PLAN: &str =
    r#"{"root":2,"nodes":[{"op":"Scan","kind":"Parquet","sources":{"paths":["t"]},"schema":[["a","Int64"],["b","Int64"],["c","Int64"]],"reader":[["a","Int64"],["b","Int64"],["c","Int64"]],"hive":null,"output":null,"columns":null,"row_index":null,"path_column":null,"rechunk":false,"slice":null,"predicate":null},{"op":"Filter","input":0,"predicate":[2,"col","b"]},{"op":"SimpleProjection","input":1,"columns":[["a","Int64"]]}],"exprs":[{"op":"Column","name":"b"},{"op":"Literal","type":"Int64","value":1},{"op":"BinaryExpr","operator":"Gt","left":0,"right":1}],"flags":0,"shared":false,"tables":null}"#;

/// The scan is narrowed in its place, and no projection stands on it.
const COUNTED: &str =
    r#"{"exprs":[{"name":"b","op":"Column"},{"op":"Literal","type":"Int64","value":1},{"left":0,"op":"BinaryExpr","operator":"Gt","right":1}],"nodes":[{"columns":["a","b"],"hive":null,"kind":"Parquet","op":"Scan","output":[["a","Int64"],["b","Int64"]],"path_column":null,"predicate":null,"reader":[["a","Int64"],["b","Int64"],["c","Int64"]],"rechunk":false,"row_index":null,"schema":[["a","Int64"],["b","Int64"],["c","Int64"]],"slice":null,"sources":{"paths":["t"]}},{"input":0,"op":"Filter","predicate":[2,"col","b"]},{"columns":[["a","Int64"]],"input":1,"op":"SimpleProjection"}],"root":2}"#;

/// Prunes the plan at a root by a pass that was told that rows are counted.
fn prune(alloc: Global, root: Node, lp: &mut Arena<IR>, ex: &mut Arena<AExpr>) -> Result<(), Fail> {
    let _ = check_plan(alloc, root, lp, ex)?;
    let mut pass = ProjectionPushDown {
        is_count_star: true,
    };
    pass.optimize(alloc, root, lp, ex)?;
    Ok(())
}

/// The text of what is left of the plan.
fn written(alloc: Global) -> Result<String, Fail> {
    let mut plan = read(alloc, PLAN)?;
    prune(alloc, plan.root, &mut plan.lp, &mut plan.ex)?;
    Ok(write_plan(alloc, &plan)?)
}

#[test]
fn a_count_puts_no_projection_on_top(rt: HostRuntime) -> Result<(), Fail> {
    let text = written(rt.alloc())?;
    assert!(rt; text.as_str() == COUNTED);
    Ok(())
}
