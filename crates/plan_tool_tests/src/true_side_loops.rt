//! What the loop makes of plans with a rule that answers for expressions.

use crate::loops::{read, written};
use crate::true_side::TrueSide;
use plan_check::check_plan;
use plan_ir::PlanCopy;
use plan_reshape::{BoxedRule, Rule, StackOptimizer};
use plan_rule::DropTrueFilter;
use std::alloc::Global;
use std::test::Fail;

/// A filter by `true | b` on one by `b | true`, on a scan.
const SIDES: &str =
    r#"{"root":0,"nodes":[{"op":"Filter","input":1,"predicate":[0,"lit","literal"]},{"op":"Filter","input":2,"predicate":[3,"col","b"]},{"op":"Scan","kind":"Parquet","sources":{"paths":["x"]},"schema":[["b","Boolean"]],"reader":[["b","Boolean"]],"hive":null,"output":null,"columns":null,"row_index":null,"path_column":null,"rechunk":false,"slice":null,"predicate":null}],"exprs":[{"op":"BinaryExpr","operator":"Or","left":1,"right":2},{"op":"Literal","type":"Boolean","value":true},{"op":"Column","name":"b"},{"op":"BinaryExpr","operator":"Or","left":4,"right":5},{"op":"Column","name":"b"},{"op":"Literal","type":"Boolean","value":true}],"flags":0,"shared":false,"tables":null}"#;

/// A filter by true on the lower one.
const TRUE: &str =
    r#"{"exprs":[{"op":"Literal","type":"Boolean","value":true},{"left":2,"op":"BinaryExpr","operator":"Or","right":3},{"name":"b","op":"Column"},{"op":"Literal","type":"Boolean","value":true}],"nodes":[{"input":1,"op":"Filter","predicate":[0,"lit","literal"]},{"input":2,"op":"Filter","predicate":[1,"col","b"]},{"columns":null,"hive":null,"kind":"Parquet","op":"Scan","output":null,"path_column":null,"predicate":null,"reader":[["b","Boolean"]],"rechunk":false,"row_index":null,"schema":[["b","Boolean"]],"slice":null,"sources":{"paths":["x"]}}],"root":0}"#;

/// The lower filter alone.
const LOWER: &str =
    r#"{"exprs":[{"left":1,"op":"BinaryExpr","operator":"Or","right":2},{"name":"b","op":"Column"},{"op":"Literal","type":"Boolean","value":true}],"nodes":[{"input":1,"op":"Filter","predicate":[0,"col","b"]},{"columns":null,"hive":null,"kind":"Parquet","op":"Scan","output":null,"path_column":null,"predicate":null,"reader":[["b","Boolean"]],"rechunk":false,"row_index":null,"schema":[["b","Boolean"]],"slice":null,"sources":{"paths":["x"]}}],"root":0}"#;

/// Calls the rule that answers for predicates. Gives what was counted.
fn call_sides(alloc: Global, plan: &mut PlanCopy) -> Result<u64, Fail> {
    let _ = check_plan(alloc, plan.root, &plan.lp, &plan.ex)?;
    let rules: &mut [TrueSide] = &mut [TrueSide];
    let (root, replaced) = StackOptimizer.optimize_loop_counted(
        alloc,
        rules,
        &mut plan.ex,
        &mut plan.lp,
        plan.root,
    )?;
    plan.root = root;
    Ok(replaced)
}

/// Calls it in a box that is a rule, and the one against filters by true in another box. Gives what was counted.
fn call_boxes(alloc: Global, plan: &mut PlanCopy) -> Result<u64, Fail> {
    let _ = check_plan(alloc, plan.root, &plan.lp, &plan.ex)?;
    let side = BoxedRule::new(Box::new(alloc, TrueSide)?);
    let filter = BoxedRule::new(Box::new(alloc, DropTrueFilter)?);
    let rules: &mut [Rule] = &mut [Rule::Boxed(side)];
    let extra: &mut [BoxedRule] = &mut [filter];
    let root = plan.root;
    let replaced = StackOptimizer.optimize_boxed(
        alloc,
        rules,
        extra,
        &mut plan.ex,
        &mut plan.lp,
        root,
    )?;
    Ok(replaced)
}

#[test]
fn a_predicate_becomes_true(rt: HostRuntime) -> Result<(), Fail> {
    let alloc = rt.alloc();
    let mut plan = read(alloc, SIDES)?;
    let replaced = call_sides(alloc, &mut plan)?;
    let text = written(alloc, &plan)?;
    assert!(rt; replaced == 0 && text.as_str() == TRUE);
    Ok(())
}

#[test]
fn a_predicate_that_became_true_goes(rt: HostRuntime) -> Result<(), Fail> {
    let alloc = rt.alloc();
    let mut plan = read(alloc, SIDES)?;
    let replaced = call_boxes(alloc, &mut plan)?;
    let text = written(alloc, &plan)?;
    assert!(rt; replaced == 1 && text.as_str() == LOWER);
    Ok(())
}
