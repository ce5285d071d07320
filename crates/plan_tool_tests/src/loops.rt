//! What the loop over rules makes of plans.

use crate::heard::Heard;
use crate::once::Once;
use plan_check::{check_plan, check_tree};
use plan_copy::renumbered;
use plan_doc::read_document;
use plan_ir::PlanCopy;
use plan_reshape::{BoxedRule, Rule, StackOptimizer};
use plan_rule::FlattenUnionRule;
use plan_text::write_plan;
use std::alloc::Global;
use std::test::Fail;

/// An ordered union of an ordered union of x and y, and z.
const UNIONS: &str =
    r#"{"root":0,"nodes":[{"op":"Union","inputs":[1,4],"maintain_order":true,"parallel":false,"rechunk":false,"flattened":false,"slice":null},{"op":"Union","inputs":[2,3],"maintain_order":true,"parallel":false,"rechunk":false,"flattened":false,"slice":null},{"op":"Scan","kind":"Parquet","sources":{"paths":["x"]},"schema":[["a","Int64"]],"reader":[["a","Int64"]],"hive":null,"output":null,"columns":null,"row_index":null,"path_column":null,"rechunk":false,"slice":null,"predicate":null},{"op":"Scan","kind":"Parquet","sources":{"paths":["y"]},"schema":[["a","Int64"]],"reader":[["a","Int64"]],"hive":null,"output":null,"columns":null,"row_index":null,"path_column":null,"rechunk":false,"slice":null,"predicate":null},{"op":"Scan","kind":"Parquet","sources":{"paths":["z"]},"schema":[["a","Int64"]],"reader":[["a","Int64"]],"hive":null,"output":null,"columns":null,"row_index":null,"path_column":null,"rechunk":false,"slice":null,"predicate":null}],"exprs":[],"flags":0,"shared":false,"tables":null}"#;

/// The union of x, y and z, in this order and marked.
const UNION: &str =
    r#"{"exprs":[],"nodes":[{"flattened":true,"inputs":[1,2,3],"maintain_order":true,"op":"Union","parallel":false,"rechunk":false,"slice":null},{"columns":null,"hive":null,"kind":"Parquet","op":"Scan","output":null,"path_column":null,"predicate":null,"reader":[["a","Int64"]],"rechunk":false,"row_index":null,"schema":[["a","Int64"]],"slice":null,"sources":{"paths":["x"]}},{"columns":null,"hive":null,"kind":"Parquet","op":"Scan","output":null,"path_column":null,"predicate":null,"reader":[["a","Int64"]],"rechunk":false,"row_index":null,"schema":[["a","Int64"]],"slice":null,"sources":{"paths":["y"]}},{"columns":null,"hive":null,"kind":"Parquet","op":"Scan","output":null,"path_column":null,"predicate":null,"reader":[["a","Int64"]],"rechunk":false,"row_index":null,"schema":[["a","Int64"]],"slice":null,"sources":{"paths":["z"]}}],"root":0}"#;

/// Three filters by true over one another, on a scan.
const FILTERS: &str =
    r#"{"root":0,"nodes":[{"op":"Filter","input":1,"predicate":[0,"lit","literal"]},{"op":"Filter","input":2,"predicate":[1,"lit","literal"]},{"op":"Filter","input":3,"predicate":[2,"lit","literal"]},{"op":"Scan","kind":"Parquet","sources":{"paths":["x"]},"schema":[["b","Boolean"]],"reader":[["b","Boolean"]],"hive":null,"output":null,"columns":null,"row_index":null,"path_column":null,"rechunk":false,"slice":null,"predicate":null}],"exprs":[{"op":"Literal","type":"Boolean","value":true},{"op":"Literal","type":"Boolean","value":true},{"op":"Literal","type":"Boolean","value":true}],"flags":0,"shared":false,"tables":null}"#;

/// One filter by true on the scan.
const FILTER: &str =
    r#"{"exprs":[{"op":"Literal","type":"Boolean","value":true}],"nodes":[{"input":1,"op":"Filter","predicate":[0,"lit","literal"]},{"columns":null,"hive":null,"kind":"Parquet","op":"Scan","output":null,"path_column":null,"predicate":null,"reader":[["b","Boolean"]],"rechunk":false,"row_index":null,"schema":[["b","Boolean"]],"slice":null,"sources":{"paths":["x"]}}],"root":0}"#;

/// A filter by `a + 1 > 2` on a scan of a.
const SUM_FILTER: &str =
    r#"{"root":0,"nodes":[{"op":"Filter","input":1,"predicate":[0,"col","a"]},{"op":"Scan","kind":"Parquet","sources":{"paths":["x"]},"schema":[["a","Int64"]],"reader":[["a","Int64"]],"hive":null,"output":null,"columns":null,"row_index":null,"path_column":null,"rechunk":false,"slice":null,"predicate":null}],"exprs":[{"op":"BinaryExpr","left":1,"operator":"Gt","right":4},{"op":"BinaryExpr","left":2,"operator":"Plus","right":3},{"op":"Column","name":"a"},{"op":"Literal","type":"Int64","value":1},{"op":"Literal","type":"Int64","value":2}],"flags":0,"shared":false,"tables":null}"#;

/// The plan of a document.
pub(crate) fn read(alloc: Global, text: &str) -> Result<PlanCopy, Fail> {
    let document = read_document(alloc, text.as_bytes())?;
    Ok(PlanCopy {
        root: document.root,
        lp: document.lp,
        ex: document.ex,
    })
}

/// The text of what the root of a plan reaches.
pub(crate) fn written(alloc: Global, plan: &PlanCopy) -> Result<String, Fail> {
    check_tree(alloc, plan.root, &plan.lp, &plan.ex)?;
    let copy = renumbered(alloc, plan.root, &plan.lp, &plan.ex)?;
    Ok(write_plan(alloc, &copy)?)
}

/// Flattens the unions of a plan.
fn flatten(alloc: Global, plan: &mut PlanCopy) -> Result<(), Fail> {
    let _ = check_plan(alloc, plan.root, &plan.lp, &plan.ex)?;
    let rules: &mut [FlattenUnionRule] = &mut [FlattenUnionRule];
    plan.root = StackOptimizer.optimize_loop(alloc, rules, &mut plan.ex, &mut plan.lp, plan.root)?;
    Ok(())
}

/// The same, with what was counted.
fn flatten_counted(alloc: Global, plan: &mut PlanCopy) -> Result<u64, Fail> {
    let _ = check_plan(alloc, plan.root, &plan.lp, &plan.ex)?;
    let rules: &mut [FlattenUnionRule] = &mut [FlattenUnionRule];
    let (root, replaced) = StackOptimizer.optimize_loop_counted(
        alloc,
        rules,
        &mut plan.ex,
        &mut plan.lp,
        plan.root,
    )?;
    plan.root = root;
    Ok(replaced)
}

/// Calls two rules that answer once, each in a box, one of them as a rule.
fn call_boxes(alloc: Global, plan: &mut PlanCopy) -> Result<u64, Fail> {
    let _ = check_plan(alloc, plan.root, &plan.lp, &plan.ex)?;
    let one = BoxedRule::new(Box::new(alloc, Once::new())?);
    let other = BoxedRule::new(Box::new(alloc, Once::new())?);
    let rules: &mut [Rule] = &mut [Rule::Boxed(one)];
    let extra: &mut [BoxedRule] = &mut [other];
    let root = plan.root;
    let replaced = StackOptimizer.optimize_boxed(
        alloc,
        rules,
        extra,
        &mut plan.ex,
        &mut plan.lp,
        root,
    )?;
    Ok(replaced)
}

/// How often a rule that answers nothing is called at the nodes and at the expressions of a plan.
fn heard(alloc: Global, plan: &mut PlanCopy) -> Result<(u32, u32), Fail> {
    let _ = check_plan(alloc, plan.root, &plan.lp, &plan.ex)?;
    let rules: &mut [Heard] = &mut [Heard { nodes: 0, exprs: 0 }];
    let root = plan.root;
    plan.root = StackOptimizer.optimize_loop(alloc, rules, &mut plan.ex, &mut plan.lp, root)?;
    Ok((rules[0].nodes, rules[0].exprs))
}

#[test]
fn unions_become_one(rt: HostRuntime) -> Result<(), Fail> {
    let alloc = rt.alloc();
    let mut plan = read(alloc, UNIONS)?;
    flatten(alloc, &mut plan)?;
    let text = written(alloc, &plan)?;
    assert!(rt; text.as_str() == UNION);
    Ok(())
}

#[test]
fn the_outer_union_is_counted(rt: HostRuntime) -> Result<(), Fail> {
    let alloc = rt.alloc();
    let mut plan = read(alloc, UNIONS)?;
    let replaced = flatten_counted(alloc, &mut plan)?;
    assert!(rt; replaced == 1);
    Ok(())
}

#[test]
fn boxes_are_called_with_what_they_keep(rt: HostRuntime) -> Result<(), Fail> {
    let alloc = rt.alloc();
    let mut plan = read(alloc, FILTERS)?;
    let replaced = call_boxes(alloc, &mut plan)?;
    let text = written(alloc, &plan)?;
    assert!(rt; replaced == 0 && text.as_str() == FILTER);
    Ok(())
}

#[test]
fn columns_and_literals_are_not_asked(rt: HostRuntime) -> Result<(), Fail> {
    let alloc = rt.alloc();
    let mut plan = read(alloc, SUM_FILTER)?;
    let calls = heard(alloc, &mut plan)?;
    assert!(rt; calls == (2, 2));
    Ok(())
}
