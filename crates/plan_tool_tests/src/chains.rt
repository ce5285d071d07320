//! What the chain of passes makes of plans, and the trail that it leaves.

use crate::fakes::call;
use crate::loops::{read, written};
use plan_check::check_plan;
use plan_core::OptFlags;
use plan_ir::PlanCopy;
use plan_order::{CountStar, set_order_flags};
use plan_reshape::BoxedRule;
use plan_rule::DropTrueFilter;
use plan_stream::{MemorySink, MemorySource};
use plan_text::{write_fault, write_plan};
use plan_tool::run;
use plan_top::{Pass, Trail, optimize, optimize_with};
use std::alloc::Global;
use std::test::Fail;

/// A projection to a, on a filter b > 1, on a scan of a, b and c.
const FILTERED: &str =
    r#"{"root":0,"nodes":[{"op":"SimpleProjection","input":1,"columns":[["a","Int64"]]},{"op":"Filter","input":2,"predicate":[0,"col","b"]},{"op":"Scan","kind":"Parquet","sources":{"paths":["t"]},"schema":[["a","Int64"],["b","Int64"],["c","String"]],"reader":[["a","Int64"],["b","Int64"],["c","String"]],"hive":null,"output":null,"columns":null,"row_index":null,"path_column":null,"rechunk":false,"slice":null,"predicate":null}],"exprs":[{"op":"BinaryExpr","operator":"Gt","left":1,"right":2},{"op":"Column","name":"b"},{"op":"Literal","type":"Int64","value":1}],"flags":0,"shared":false,"tables":null}"#;

/// The scan reads a and b, and a projection to these stands on it.
const NARROWED: &str =
    r#"{"exprs":[{"left":1,"op":"BinaryExpr","operator":"Gt","right":2},{"name":"b","op":"Column"},{"op":"Literal","type":"Int64","value":1}],"nodes":[{"columns":[["a","Int64"]],"input":1,"op":"SimpleProjection"},{"input":2,"op":"Filter","predicate":[0,"col","b"]},{"columns":[["a","Int64"],["b","Int64"]],"input":3,"op":"SimpleProjection"},{"columns":["a","b"],"hive":null,"kind":"Parquet","op":"Scan","output":[["a","Int64"],["b","Int64"]],"path_column":null,"predicate":null,"reader":[["a","Int64"],["b","Int64"],["c","String"]],"rechunk":false,"row_index":null,"schema":[["a","Int64"],["b","Int64"],["c","String"]],"slice":null,"sources":{"paths":["t"]}}],"root":0}"#;

/// The scan reads a and b.
const NARROWED_FAST: &str =
    r#"{"exprs":[{"left":1,"op":"BinaryExpr","operator":"Gt","right":2},{"name":"b","op":"Column"},{"op":"Literal","type":"Int64","value":1}],"nodes":[{"columns":[["a","Int64"]],"input":1,"op":"SimpleProjection"},{"input":2,"op":"Filter","predicate":[0,"col","b"]},{"columns":["a","b"],"hive":null,"kind":"Parquet","op":"Scan","output":[["a","Int64"],["b","Int64"]],"path_column":null,"predicate":null,"reader":[["a","Int64"],["b","Int64"],["c","String"]],"rechunk":false,"row_index":null,"schema":[["a","Int64"],["b","Int64"],["c","String"]],"slice":null,"sources":{"paths":["t"]}}],"root":0}"#;

/// An ordered union of an ordered union of x and y, and z.
const UNIONS: &str =
    r#"{"root":0,"nodes":[{"op":"Union","inputs":[1,4],"maintain_order":true,"parallel":false,"rechunk":false,"flattened":false,"slice":null},{"op":"Union","inputs":[2,3],"maintain_order":true,"parallel":false,"rechunk":false,"flattened":false,"slice":null},{"op":"Scan","kind":"Parquet","sources":{"paths":["x"]},"schema":[["a","Int64"]],"reader":[["a","Int64"]],"hive":null,"output":null,"columns":null,"row_index":null,"path_column":null,"rechunk":false,"slice":null,"predicate":null},{"op":"Scan","kind":"Parquet","sources":{"paths":["y"]},"schema":[["a","Int64"]],"reader":[["a","Int64"]],"hive":null,"output":null,"columns":null,"row_index":null,"path_column":null,"rechunk":false,"slice":null,"predicate":null},{"op":"Scan","kind":"Parquet","sources":{"paths":["z"]},"schema":[["a","Int64"]],"reader":[["a","Int64"]],"hive":null,"output":null,"columns":null,"row_index":null,"path_column":null,"rechunk":false,"slice":null,"predicate":null}],"exprs":[],"flags":0,"shared":false,"tables":null}"#;

/// The same plan.
const UNIONS_LISTED: &str =
    r#"{"exprs":[],"nodes":[{"flattened":false,"inputs":[1,4],"maintain_order":true,"op":"Union","parallel":false,"rechunk":false,"slice":null},{"flattened":false,"inputs":[2,3],"maintain_order":true,"op":"Union","parallel":false,"rechunk":false,"slice":null},{"columns":null,"hive":null,"kind":"Parquet","op":"Scan","output":null,"path_column":null,"predicate":null,"reader":[["a","Int64"]],"rechunk":false,"row_index":null,"schema":[["a","Int64"]],"slice":null,"sources":{"paths":["x"]}},{"columns":null,"hive":null,"kind":"Parquet","op":"Scan","output":null,"path_column":null,"predicate":null,"reader":[["a","Int64"]],"rechunk":false,"row_index":null,"schema":[["a","Int64"]],"slice":null,"sources":{"paths":["y"]}},{"columns":null,"hive":null,"kind":"Parquet","op":"Scan","output":null,"path_column":null,"predicate":null,"reader":[["a","Int64"]],"rechunk":false,"row_index":null,"schema":[["a","Int64"]],"slice":null,"sources":{"paths":["z"]}}],"root":0}"#;

/// The union of x, y and z, in this order and marked.
const UNION: &str =
    r#"{"exprs":[],"nodes":[{"flattened":true,"inputs":[1,2,3],"maintain_order":true,"op":"Union","parallel":false,"rechunk":false,"slice":null},{"columns":null,"hive":null,"kind":"Parquet","op":"Scan","output":null,"path_column":null,"predicate":null,"reader":[["a","Int64"]],"rechunk":false,"row_index":null,"schema":[["a","Int64"]],"slice":null,"sources":{"paths":["x"]}},{"columns":null,"hive":null,"kind":"Parquet","op":"Scan","output":null,"path_column":null,"predicate":null,"reader":[["a","Int64"]],"rechunk":false,"row_index":null,"schema":[["a","Int64"]],"slice":null,"sources":{"paths":["y"]}},{"columns":null,"hive":null,"kind":"Parquet","op":"Scan","output":null,"path_column":null,"predicate":null,"reader":[["a","Int64"]],"rechunk":false,"row_index":null,"schema":[["a","Int64"]],"slice":null,"sources":{"paths":["z"]}}],"root":0}"#;

/// The sum of v for each k, over a scan of k, v and t that is to be rechunked.
const GROUPED: &str =
    r#"{"root":0,"nodes":[{"op":"GroupBy","input":1,"keys":[[0,"col","k"]],"aggs":[[1,"col","v"]],"schema":[["k","Int64"],["v","Int64"]],"maintain_order":false,"slice":null},{"op":"Scan","kind":"Parquet","sources":{"paths":["g"]},"schema":[["k","Int64"],["v","Int64"],["t","String"]],"reader":[["k","Int64"],["v","Int64"],["t","String"]],"hive":null,"output":null,"columns":null,"row_index":null,"path_column":null,"rechunk":true,"slice":null,"predicate":null}],"exprs":[{"op":"Column","name":"k"},{"op":"Agg","kind":"Sum","input":2},{"op":"Column","name":"v"}],"flags":0,"shared":false,"tables":null}"#;

/// The same plan.
const GROUPED_LISTED: &str =
    r#"{"exprs":[{"name":"k","op":"Column"},{"input":2,"kind":"Sum","op":"Agg"},{"name":"v","op":"Column"}],"nodes":[{"aggs":[[1,"col","v"]],"input":1,"keys":[[0,"col","k"]],"maintain_order":false,"op":"GroupBy","schema":[["k","Int64"],["v","Int64"]],"slice":null},{"columns":null,"hive":null,"kind":"Parquet","op":"Scan","output":null,"path_column":null,"predicate":null,"reader":[["k","Int64"],["v","Int64"],["t","String"]],"rechunk":true,"row_index":null,"schema":[["k","Int64"],["v","Int64"],["t","String"]],"slice":null,"sources":{"paths":["g"]}}],"root":0}"#;

/// The scan isn't to be rechunked.
const GROUPED_DELAYED: &str =
    r#"{"exprs":[{"name":"k","op":"Column"},{"input":2,"kind":"Sum","op":"Agg"},{"name":"v","op":"Column"}],"nodes":[{"aggs":[[1,"col","v"]],"input":1,"keys":[[0,"col","k"]],"maintain_order":false,"op":"GroupBy","schema":[["k","Int64"],["v","Int64"]],"slice":null},{"columns":null,"hive":null,"kind":"Parquet","op":"Scan","output":null,"path_column":null,"predicate":null,"reader":[["k","Int64"],["v","Int64"],["t","String"]],"rechunk":false,"row_index":null,"schema":[["k","Int64"],["v","Int64"],["t","String"]],"slice":null,"sources":{"paths":["g"]}}],"root":0}"#;

/// A filter by true, on a scan.
const TRUE: &str =
    r#"{"root":0,"nodes":[{"op":"Filter","input":1,"predicate":[0,"lit","literal"]},{"op":"Scan","kind":"Parquet","sources":{"paths":["t"]},"schema":[["a","Int64"],["b","Int64"],["c","String"]],"reader":[["a","Int64"],["b","Int64"],["c","String"]],"hive":null,"output":null,"columns":null,"row_index":null,"path_column":null,"rechunk":false,"slice":null,"predicate":null}],"exprs":[{"op":"Literal","type":"Boolean","value":true}],"flags":0,"shared":false,"tables":null}"#;

/// The same plan.
const TRUE_LISTED: &str =
    r#"{"exprs":[{"op":"Literal","type":"Boolean","value":true}],"nodes":[{"input":1,"op":"Filter","predicate":[0,"lit","literal"]},{"columns":null,"hive":null,"kind":"Parquet","op":"Scan","output":null,"path_column":null,"predicate":null,"reader":[["a","Int64"],["b","Int64"],["c","String"]],"rechunk":false,"row_index":null,"schema":[["a","Int64"],["b","Int64"],["c","String"]],"slice":null,"sources":{"paths":["t"]}}],"root":0}"#;

/// The scan alone.
const ALONE: &str =
    r#"{"exprs":[],"nodes":[{"columns":null,"hive":null,"kind":"Parquet","op":"Scan","output":null,"path_column":null,"predicate":null,"reader":[["a","Int64"],["b","Int64"],["c","String"]],"rechunk":false,"row_index":null,"schema":[["a","Int64"],["b","Int64"],["c","String"]],"slice":null,"sources":{"paths":["t"]}}],"root":0}"#;

/// What is written for the scan alone.
const ALONE_LISTED: &str =
    r#"{"plan":{"exprs":[],"nodes":[{"columns":null,"hive":null,"kind":"Parquet","op":"Scan","output":null,"path_column":null,"predicate":null,"reader":[["a","Int64"],["b","Int64"],["c","String"]],"rechunk":false,"row_index":null,"schema":[["a","Int64"],["b","Int64"],["c","String"]],"slice":null,"sources":{"paths":["t"]}}],"root":0},"reads":[["a","b","c"]],"rows":null}
"#;

/// A projection, on a filter, on a sort: each by a column that isn't there.
const FAULTS: &str =
    r#"{"root":0,"nodes":[{"op":"SimpleProjection","input":1,"columns":[["p","Int64"]]},{"op":"Filter","input":2,"predicate":[0,"col","q"]},{"op":"Sort","input":3,"by":[[3,"col","r"]],"descending":[false],"nulls_last":[false],"maintain_order":false,"slice":null},{"op":"Scan","kind":"Parquet","sources":{"paths":["t"]},"schema":[["a","Int64"],["b","Int64"],["c","String"]],"reader":[["a","Int64"],["b","Int64"],["c","String"]],"hive":null,"output":null,"columns":null,"row_index":null,"path_column":null,"rechunk":false,"slice":null,"predicate":null}],"exprs":[{"op":"BinaryExpr","operator":"Gt","left":1,"right":2},{"op":"Column","name":"q"},{"op":"Literal","type":"Int64","value":1},{"op":"Column","name":"r"}],"flags":0,"shared":false,"tables":null}"#;

/// The same plan.
const FAULTS_LISTED: &str =
    r#"{"exprs":[{"left":1,"op":"BinaryExpr","operator":"Gt","right":2},{"name":"q","op":"Column"},{"op":"Literal","type":"Int64","value":1},{"name":"r","op":"Column"}],"nodes":[{"columns":[["p","Int64"]],"input":1,"op":"SimpleProjection"},{"input":2,"op":"Filter","predicate":[0,"col","q"]},{"by":[[3,"col","r"]],"descending":[false],"input":3,"maintain_order":false,"nulls_last":[false],"op":"Sort","slice":null},{"columns":null,"hive":null,"kind":"Parquet","op":"Scan","output":null,"path_column":null,"predicate":null,"reader":[["a","Int64"],["b","Int64"],["c","String"]],"rechunk":false,"row_index":null,"schema":[["a","Int64"],["b","Int64"],["c","String"]],"slice":null,"sources":{"paths":["t"]}}],"root":0}"#;

/// The sum of v for each k, over a scan of k, v and t that is sorted by t.
const SORTED: &str =
    r#"{"root":0,"nodes":[{"op":"GroupBy","input":1,"keys":[[0,"col","k"]],"aggs":[[1,"col","v"]],"schema":[["k","Int64"],["v","Int64"]],"maintain_order":false,"slice":null},{"op":"Sort","input":2,"by":[[3,"col","t"]],"descending":[false],"nulls_last":[false],"maintain_order":false,"slice":null},{"op":"Scan","kind":"Parquet","sources":{"paths":["p"]},"schema":[["k","Int64"],["v","Int64"],["t","Int64"]],"reader":[["k","Int64"],["v","Int64"],["t","Int64"]],"hive":null,"output":null,"columns":null,"row_index":null,"path_column":null,"rechunk":false,"slice":null,"predicate":null}],"exprs":[{"op":"Column","name":"k"},{"op":"Agg","kind":"Sum","input":2},{"op":"Column","name":"v"},{"op":"Column","name":"t"}],"flags":0,"shared":false,"tables":null}"#;

/// The same plan.
const SORTED_LISTED: &str =
    r#"{"exprs":[{"name":"k","op":"Column"},{"input":2,"kind":"Sum","op":"Agg"},{"name":"v","op":"Column"},{"name":"t","op":"Column"}],"nodes":[{"aggs":[[1,"col","v"]],"input":1,"keys":[[0,"col","k"]],"maintain_order":false,"op":"GroupBy","schema":[["k","Int64"],["v","Int64"]],"slice":null},{"by":[[3,"col","t"]],"descending":[false],"input":2,"maintain_order":false,"nulls_last":[false],"op":"Sort","slice":null},{"columns":null,"hive":null,"kind":"Parquet","op":"Scan","output":null,"path_column":null,"predicate":null,"reader":[["k","Int64"],["v","Int64"],["t","Int64"]],"rechunk":false,"row_index":null,"schema":[["k","Int64"],["v","Int64"],["t","Int64"]],"slice":null,"sources":{"paths":["p"]}}],"root":0}"#;

/// The scan isn't sorted.
const UNSORTED: &str =
    r#"{"exprs":[{"name":"k","op":"Column"},{"input":2,"kind":"Sum","op":"Agg"},{"name":"v","op":"Column"}],"nodes":[{"aggs":[[1,"col","v"]],"input":1,"keys":[[0,"col","k"]],"maintain_order":false,"op":"GroupBy","schema":[["k","Int64"],["v","Int64"]],"slice":null},{"columns":null,"hive":null,"kind":"Parquet","op":"Scan","output":null,"path_column":null,"predicate":null,"reader":[["k","Int64"],["v","Int64"],["t","Int64"]],"rechunk":false,"row_index":null,"schema":[["k","Int64"],["v","Int64"],["t","Int64"]],"slice":null,"sources":{"paths":["p"]}}],"root":0}"#;

/// How many rows a text file has.
const COUNTED: &str =
    r#"{"root":0,"nodes":[{"op":"Select","input":1,"exprs":[[0,"lit","len"]],"schema":[["len","Int64"]],"options":[true,true,true]},{"op":"Scan","kind":"Csv","sources":{"paths":["t"]},"schema":[["a","Int64"]],"reader":[["a","Int64"]],"hive":null,"output":null,"columns":null,"row_index":null,"path_column":null,"rechunk":false,"slice":null,"predicate":null}],"exprs":[{"op":"Len"}],"flags":0,"shared":false,"tables":null}"#;

/// The same plan.
const COUNTED_LISTED: &str =
    r#"{"exprs":[{"op":"Len"}],"nodes":[{"exprs":[[0,"lit","len"]],"input":1,"op":"Select","options":[true,true,true],"schema":[["len","Int64"]]},{"columns":null,"hive":null,"kind":"Csv","op":"Scan","output":null,"path_column":null,"predicate":null,"reader":[["a","Int64"]],"rechunk":false,"row_index":null,"schema":[["a","Int64"]],"slice":null,"sources":{"paths":["t"]}}],"root":0}"#;

/// A count of its rows.
const COUNT: &str =
    r#"{"exprs":[],"nodes":[{"function":{"FastCount":{"alias":null,"kind":"Csv","sources":{"paths":["t"]}}},"input":1,"op":"MapFunction"},{"frame":null,"op":"DataFrameScan","output":null,"schema":[]}],"root":0}"#;

/// How many rows two text files have, the second one projected, as n.
const TURNS: &str =
    r#"{"root":0,"nodes":[{"op":"Select","input":1,"exprs":[[0,"alias","n"]],"schema":[["n","Int64"]],"options":[true,true,true]},{"op":"Union","inputs":[2,3],"maintain_order":true,"parallel":false,"rechunk":false,"flattened":false,"slice":null},{"op":"Scan","kind":"Csv","sources":{"paths":["t"]},"schema":[["a","Int64"]],"reader":[["a","Int64"]],"hive":null,"output":null,"columns":null,"row_index":null,"path_column":null,"rechunk":false,"slice":null,"predicate":null},{"op":"SimpleProjection","input":4,"columns":[["a","Int64"]]},{"op":"Scan","kind":"Csv","sources":{"paths":["u"]},"schema":[["a","Int64"],["b","Int64"]],"reader":[["a","Int64"],["b","Int64"]],"hive":null,"output":null,"columns":null,"row_index":null,"path_column":null,"rechunk":false,"slice":null,"predicate":null}],"exprs":[{"op":"Len"}],"flags":0,"shared":false,"tables":null}"#;

/// A count of their rows.
const TURNS_COUNT: &str =
    r#"{"exprs":[],"nodes":[{"function":{"FastCount":{"alias":"n","kind":"Csv","sources":{"paths":["t","u"]}}},"input":1,"op":"MapFunction"},{"frame":null,"op":"DataFrameScan","output":null,"schema":[]}],"root":0}"#;

/// How many rows of a text file pass a filter.
const PASSING: &str =
    r#"{"root":0,"nodes":[{"op":"Select","input":1,"exprs":[[0,"lit","len"]],"schema":[["len","Int64"]],"options":[true,true,true]},{"op":"Filter","input":2,"predicate":[1,"lit","literal"]},{"op":"Scan","kind":"Csv","sources":{"paths":["t"]},"schema":[["a","Int64"]],"reader":[["a","Int64"]],"hive":null,"output":null,"columns":null,"row_index":null,"path_column":null,"rechunk":false,"slice":null,"predicate":null}],"exprs":[{"op":"Len"},{"op":"Literal","type":"Boolean","value":true}],"flags":0,"shared":false,"tables":null}"#;

/// The same plan.
const PASSING_LISTED: &str =
    r#"{"exprs":[{"op":"Len"},{"op":"Literal","type":"Boolean","value":true}],"nodes":[{"exprs":[[0,"lit","len"]],"input":1,"op":"Select","options":[true,true,true],"schema":[["len","Int64"]]},{"input":2,"op":"Filter","predicate":[1,"lit","literal"]},{"columns":null,"hive":null,"kind":"Csv","op":"Scan","output":null,"path_column":null,"predicate":null,"reader":[["a","Int64"]],"rechunk":false,"row_index":null,"schema":[["a","Int64"]],"slice":null,"sources":{"paths":["t"]}}],"root":0}"#;

/// Plans, whether they are counted, and what is left.
const COUNTS: &[(&str, bool, &str)] = &[
    (COUNTED, true, COUNT),
    (TURNS, true, TURNS_COUNT),
    (PASSING, false, PASSING_LISTED),
    (TRUE, false, TRUE_LISTED),
];

/// Plans, flags, and what is left.
const CASES: &[(&str, u32, &str)] = &[
    (FILTERED, 1, NARROWED),
    (FILTERED, 16385, NARROWED_FAST),
    (UNIONS, 0, UNION),
    (UNIONS, 4096, UNIONS_LISTED),
    (GROUPED, 0, GROUPED_DELAYED),
    (GROUPED, 4096, GROUPED_LISTED),
    (TRUE, 0, TRUE_LISTED),
    (SORTED, 66048, UNSORTED),
    (SORTED, 65536, SORTED_LISTED),
    (COUNTED, 1, COUNT),
    (COUNTED, 0, COUNTED_LISTED),
];

/// The text of what is left of the plan of a document.
fn passed(alloc: Global, text: &str, bits: u32) -> Result<String, Fail> {
    let mut plan = read(alloc, text)?;
    let flags = OptFlags::from_bits_truncate(bits);
    let mut scratch = Vec::new(alloc);
    let (root, lp, ex) = (plan.root, &mut plan.lp, &mut plan.ex);
    plan.root = optimize(alloc, root, flags, false, lp, ex, &mut scratch)?;
    written(alloc, &plan)
}

/// A box that drops filters by true.
fn boxes(alloc: Global) -> Result<Vec<BoxedRule>, Fail> {
    let mut extra = Vec::new(alloc);
    extra.push(BoxedRule::new(Box::new(alloc, DropTrueFilter)?))?;
    Ok(extra)
}

/// Whether the steps of a trail are these passes, with these counts and plans.
fn shows(alloc: Global, trail: &Trail, steps: &[(Pass, u64, &str)]) -> Result<bool, Fail> {
    if trail.steps().len() != steps.len() {
        return Ok(false);
    }
    for (step, (pass, replaced, text)) in trail.steps().iter().zip(steps) {
        let plan = write_plan(alloc, &step.plan)?;
        if step.pass != *pass || step.replaced != *replaced || plan.as_str() != *text {
            return Ok(false);
        }
    }
    Ok(true)
}

/// Changes the plan of a document, with the box and a trail.
fn trailed(
    alloc: Global,
    plan: &mut PlanCopy,
    bits: u32,
    trail: &mut Trail,
) -> Result<String, Fail> {
    let flags = OptFlags::from_bits_truncate(bits);
    let mut scratch = Vec::new(alloc);
    let mut extra = boxes(alloc)?;
    let (root, lp, ex) = (plan.root, &mut plan.lp, &mut plan.ex);
    match optimize_with(
        alloc,
        root,
        flags,
        false,
        lp,
        ex,
        &mut scratch,
        &mut extra,
        trail,
    ) {
        Ok(root) => {
            plan.root = root;
            written(alloc, plan)
        }
        Err(fault) => Ok(write_fault(alloc, &fault)?),
    }
}

#[test]
fn passes_leave_these_plans(rt: HostRuntime) -> Result<(), Fail> {
    let alloc = rt.alloc();
    for (text, bits, left) in CASES {
        assert!(rt; passed(alloc, *text, *bits)?.as_str() == *left);
    }
    Ok(())
}

#[test]
fn a_trail_shows_each_pass(rt: HostRuntime) -> Result<(), Fail> {
    let alloc = rt.alloc();
    let mut trail = Trail::new(alloc);
    let mut plan = read(alloc, TRUE)?;
    let left = trailed(alloc, &mut plan, 0, &mut trail)?;
    let steps = [(Pass::Given, 0, TRUE_LISTED), (Pass::Rules, 1, ALONE)];
    assert!(rt; left.as_str() == ALONE && shows(alloc, &trail, &steps)?);
    Ok(())
}

/// Looks at the orders of a plan. Gives whether nothing is left in the stack that was lent.
fn look_at_orders(alloc: Global, plan: &mut PlanCopy) -> Result<bool, Fail> {
    let _ = check_plan(alloc, plan.root, &plan.lp, &plan.ex)?;
    let mut scratch = Vec::new(alloc);
    set_order_flags(plan.root, &mut plan.lp, &plan.ex, &mut scratch)?;
    Ok(scratch.is_empty())
}

/// Puts a bare count in the place of a plan, if it can be counted.
fn count(alloc: Global, plan: &mut PlanCopy) -> Result<bool, Fail> {
    let _ = check_plan(alloc, plan.root, &plan.lp, &plan.ex)?;
    let answer = CountStar::new().optimize_plan(alloc, &mut plan.lp, &plan.ex, plan.root)?;
    let is_counted = answer.is_some();
    drop(answer);
    Ok(is_counted)
}

/// Whether counting the rows of files leaves this of the plan of a document, and says whether it did.
fn is_left(alloc: Global, text: &str, counted: bool, left: &str) -> Result<bool, Fail> {
    let mut plan = read(alloc, text)?;
    let is_counted = count(alloc, &mut plan)?;
    Ok(is_counted == counted && written(alloc, &plan)?.as_str() == left)
}

#[test]
fn orders_are_looked_at(rt: HostRuntime) -> Result<(), Fail> {
    let alloc = rt.alloc();
    let mut plan = read(alloc, SORTED)?;
    let is_empty = look_at_orders(alloc, &mut plan)?;
    let text = written(alloc, &plan)?;
    assert!(rt; is_empty && text.as_str() == UNSORTED);
    Ok(())
}

#[test]
fn rows_of_files_are_counted(rt: HostRuntime) -> Result<(), Fail> {
    let alloc = rt.alloc();
    for (text, counted, left) in COUNTS {
        assert!(rt; is_left(alloc, *text, *counted, *left)?);
    }
    Ok(())
}

/// Calls the command on a document, with boxes.
fn run_on(
    alloc: Global,
    words: &[String],
    text: &str,
    sink: &mut MemorySink,
    extra: &mut Vec<BoxedRule>,
) -> u8 {
    let mut source = MemorySource::new(text.as_bytes(), 4096);
    run(alloc, words, &mut source, sink, extra).code()
}

/// Calls `optimize` on a document, with the box.
fn run_with_box(alloc: Global, text: &str, sink: &mut MemorySink) -> Result<u8, Fail> {
    let words = call(alloc, &["optimize"])?;
    let mut extra = boxes(alloc)?;
    Ok(run_on(alloc, words.as_slice(), text, sink, &mut extra))
}

#[test]
fn the_command_calls_boxes(rt: HostRuntime) -> Result<(), Fail> {
    let alloc = rt.alloc();
    let mut sink = MemorySink::new(alloc, 100000)?;
    let code = run_with_box(alloc, TRUE, &mut sink)?;
    assert!(rt; code == 0 && sink.bytes() == ALONE_LISTED.as_bytes());
    Ok(())
}

#[test]
fn a_fault_changes_nothing(rt: HostRuntime) -> Result<(), Fail> {
    let alloc = rt.alloc();
    let mut trail = Trail::new(alloc);
    let mut plan = read(alloc, FAULTS)?;
    let fault = trailed(alloc, &mut plan, 1, &mut trail)?;
    let text = write_plan(alloc, &plan)?;
    assert!(rt;
        fault.as_str() == "{\"error\":{\"kind\":\"SchemaFieldNotFound\",\"node\":2,\"place\":1}}\n"
            && text.as_str() == FAULTS_LISTED
            && trail.steps().len() == 0
    );
    Ok(())
}
