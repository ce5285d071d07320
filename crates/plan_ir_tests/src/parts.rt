//! Parts, walks and copies of the nodes of one document.
ghost use Rattle.std.specs.Prelude.{◌≡◌, ◌∷◌, [], length, IfOk};
ghost use Rattle.plan_expr.specs.Operands.{operands_of};
ghost use Rattle.plan_ir.specs.Parts.{inputs_of, listed_exprs_of};

use crate::read::read;
use plan_check::check_tree;
use plan_copy::renumbered;
use plan_core::{Arena, Items, Node, TryClone};
use plan_expr::{AExpr, ExprIR, Operator};
use plan_ir::{ArenaLpIter, IR, PlanCopy};
use plan_text::write_plan;
use plan_tree::{Entry, Step, walk};
use std::alloc::{AllocError, Global};
use std::test::Fail;

/// Numbers of nodes or expressions that are written in a table.
type Numbers = &'static [Node];

/// At 5, among others, a projection to a over a filter b > 1 over a scan; at 7 a union and at 8 a join of two scans; at 9 a cross join
/// under a condition, and at 10 a join of other inputs on other keys.
const NODES: &str =
    r#"{"root":5,"nodes":[{"op":"Invalid"},{"op":"Scan","kind":"Parquet","sources":{"paths":["t"]},"schema":[["a","Int64"],["b","Int64"],["c","Int64"]],"reader":[["a","Int64"],["b","Int64"],["c","Int64"]],"hive":null,"output":null,"columns":null,"row_index":null,"path_column":null,"rechunk":false,"slice":null,"predicate":null},{"op":"Invalid"},{"op":"Filter","input":1,"predicate":[4,"col","b"]},{"op":"Invalid"},{"op":"SimpleProjection","input":3,"columns":[["a","Int64"]]},{"op":"Scan","kind":"Parquet","sources":{"paths":["t"]},"schema":[["a","Int64"],["b","Int64"],["c","Int64"]],"reader":[["a","Int64"],["b","Int64"],["c","Int64"]],"hive":null,"output":null,"columns":null,"row_index":null,"path_column":null,"rechunk":false,"slice":null,"predicate":null},{"op":"Union","inputs":[6,1],"maintain_order":true,"parallel":false,"rechunk":false,"flattened":false,"slice":null},{"op":"Join","left":6,"right":1,"left_on":[[1,"col","b"]],"right_on":[[2,"col","b"]],"schema":[["a","Int64"],["b","Int64"],["c","Int64"]],"how":"Inner","coalesce":"JoinSpecific","suffix":null,"join_nulls":false,"maintain_order":"None","slice":null,"options":null,"parallel":[true,false]},{"op":"Join","left":6,"right":1,"left_on":[],"right_on":[],"schema":[["a","Int64"],["b","Int64"],["c","Int64"]],"how":"Cross","coalesce":"JoinSpecific","suffix":null,"join_nulls":false,"maintain_order":"None","slice":null,"options":{"cross":[4,"col","b"]},"parallel":[true,false]},{"op":"Join","left":3,"right":5,"left_on":[[3,"lit","l"]],"right_on":[[0,"alias","r"]],"schema":[["x","Int64"]],"how":"Left","coalesce":"KeepColumns","suffix":null,"join_nulls":true,"maintain_order":"Right","slice":null,"options":null,"parallel":[false,false]}],"exprs":[{"op":"Literal","type":"Int64","value":7},{"op":"Column","name":"b"},{"op":"Column","name":"c"},{"op":"Literal","type":"Int64","value":1},{"op":"BinaryExpr","operator":"Gt","left":1,"right":3}],"flags":0,"shared":false,"tables":null}"#;

/// The plan at 5 alone, in walk order.
const PLAN: &str =
    r#"{"exprs":[{"left":1,"op":"BinaryExpr","operator":"Gt","right":2},{"name":"b","op":"Column"},{"op":"Literal","type":"Int64","value":1}],"nodes":[{"columns":[["a","Int64"]],"input":1,"op":"SimpleProjection"},{"input":2,"op":"Filter","predicate":[0,"col","b"]},{"columns":null,"hive":null,"kind":"Parquet","op":"Scan","output":null,"path_column":null,"predicate":null,"reader":[["a","Int64"],["b","Int64"],["c","Int64"]],"rechunk":false,"row_index":null,"schema":[["a","Int64"],["b","Int64"],["c","Int64"]],"slice":null,"sources":{"paths":["t"]}}],"root":0}"#;

/// The filter alone.
const FILTER: &str =
    r#"{"exprs":[],"nodes":[{"input":1,"op":"Filter","predicate":[4,"col","b"]}],"root":0}"#;

/// The join alone, over the inputs and on the keys of the other one.
const JOIN: &str =
    r#"{"exprs":[],"nodes":[{"coalesce":"JoinSpecific","how":"Inner","join_nulls":false,"left":3,"left_on":[[3,"lit","l"]],"maintain_order":"None","op":"Join","options":null,"parallel":[true,false],"right":5,"right_on":[[0,"alias","r"]],"schema":[["a","Int64"],["b","Int64"],["c","Int64"]],"slice":null,"suffix":null}],"root":0}"#;

/// The cross join alone, over these inputs, under its own condition.
const CROSS_JOIN: &str =
    r#"{"exprs":[],"nodes":[{"coalesce":"JoinSpecific","how":"Cross","join_nulls":false,"left":3,"left_on":[],"maintain_order":"None","op":"Join","options":{"cross":[4,"col","b"]},"parallel":[true,false],"right":5,"right_on":[],"schema":[["a","Int64"],["b","Int64"],["c","Int64"]],"slice":null,"suffix":null}],"root":0}"#;

/// Nodes with their inputs, and with the expressions that they list.
const PARTS: [(usize, Numbers, Numbers); 4] = [
    (3, &[Node(1)], &[Node(4)]),
    (7, &[Node(6), Node(1)], &[]),
    (8, &[Node(6), Node(1)], &[Node(1), Node(2)]),
    (9, &[Node(6), Node(1)], &[]),
];

/// Roots, and the order in which what they reach is walked.
const WALKS: [(usize, Numbers); 3] = [
    (5, &[Node(5), Node(3), Node(1)]),
    (7, &[Node(7), Node(1), Node(6)]),
    (8, &[Node(8), Node(1), Node(6)]),
];

/// A node, one whose expressions and one whose inputs it is given, and the text of what it is then.
const COPIES: [(usize, usize, usize, &str); 3] = [
    (3, 3, 3, FILTER),
    (8, 10, 10, JOIN),
    (9, 9, 10, CROSS_JOIN),
];

/// The node of a number, if there is one.
fn node_at(lp: &Arena<IR>, number: usize) -> Option<&IR> {
    if number < lp.len() {
        Some(lp.get(Node(number)))
    } else {
        None
    }
}

/// Whether a node has these inputs.
fn has_inputs(alloc: Global, node: &IR, wanted: &[Node]) -> Result<bool, AllocError> {
    let all = node.get_inputs_vec(alloc)?;
    let few = node.get_inputs(alloc)?;
    Ok(all.as_slice() == wanted && few.as_slice() == wanted)
}

/// Whether the expressions have these numbers, in order.
fn are_at(exprs: &[ExprIR], wanted: &[Node]) -> bool {
    for (expr, node) in exprs.iter().zip(wanted) {
        if expr.node != *node {
            return false;
        }
    }
    exprs.len() == wanted.len()
}

/// Whether a node lists the expressions of these numbers, and appends the same to a list without items.
fn lists(alloc: Global, node: &IR, wanted: &[Node]) -> Result<bool, AllocError> {
    let listed = node.get_exprs(alloc)?;
    let mut copies = Items::new(alloc);
    node.copy_exprs(alloc, &mut copies)?;
    Ok(are_at(listed.as_slice(), wanted) && copies.as_slice() == listed.as_slice())
}

/// Whether the node of a number has these inputs, and lists these expressions.
fn has_parts(
    alloc: Global,
    lp: &Arena<IR>,
    number: usize,
    inputs: &[Node],
    exprs: &[Node],
) -> Result<bool, AllocError> {
    match node_at(lp, number) {
        Some(node) => Ok(has_inputs(alloc, node, inputs)? && lists(alloc, node, exprs)?),
        None => Ok(false),
    }
}

/// Whether the nodes have the parts that are told.
fn have_parts(alloc: Global, lp: &Arena<IR>) -> Result<bool, AllocError> {
    for (number, inputs, exprs) in PARTS {
        if !has_parts(alloc, lp, number, inputs, exprs)? {
            return Ok(false);
        }
    }
    Ok(true)
}

#[test]
fn nodes_list_inputs_and_expressions(rt: HostRuntime) -> Result<(), Fail> {
    let plan = read(rt.alloc(), NODES)?;
    let is_so = have_parts(rt.alloc(), &plan.lp)?;
    drop(plan);
    assert!(rt; is_so);
    Ok(())
}

/// The inputs of the node of a number, behind a number.
fn behind(
    alloc: Global,
    first: Node,
    lp: &Arena<IR>,
    number: usize,
) -> Result<Items<Node>, AllocError> {
    let mut inputs = Items::new(alloc);
    inputs.push(first)?;
    if let Some(node) = node_at(lp, number) {
        node.copy_inputs(&mut inputs)?;
    }
    Ok(inputs)
}

#[test]
fn inputs_go_behind_those_there(rt: HostRuntime) -> Result<(), Fail> {
    let plan = read(rt.alloc(), NODES)?;
    let inputs = behind(rt.alloc(), Node(7), &plan.lp, 3)?;
    drop(plan);
    assert!(rt; inputs.as_slice() == [Node(7), Node(1)].as_slice());
    Ok(())
}

/// The numbers of the nodes below a root, and its own, in the order of a walk, if trees stand there.
fn walked(alloc: Global, root: Node, lp: &Arena<IR>) -> Result<Option<Items<Node>>, AllocError> {
    let start = Step {
        node: root,
        mark: (),
    };
    let nodes = walk(alloc, lp, &[start])?;
    if nodes.fault.is_some() {
        return Ok(None);
    }
    let mut numbers = Items::new(alloc);
    for (node, _) in lp.iter(alloc, root)? {
        numbers.push(node)?;
    }
    Ok(Some(numbers))
}

/// Whether the nodes below a root are walked in this order.
fn is_walked(
    alloc: Global,
    root: Node,
    lp: &Arena<IR>,
    wanted: &[Node],
) -> Result<bool, AllocError> {
    match walked(alloc, root, lp)? {
        Some(numbers) => Ok(numbers.as_slice() == wanted),
        None => Ok(false),
    }
}

/// Whether the walks are as told.
fn are_walked(alloc: Global, lp: &Arena<IR>) -> Result<bool, AllocError> {
    for (root, wanted) in WALKS {
        if !is_walked(alloc, Node(root), lp, wanted)? {
            return Ok(false);
        }
    }
    Ok(true)
}

#[test]
fn walks_meet_the_last_input_first(rt: HostRuntime) -> Result<(), Fail> {
    let plan = read(rt.alloc(), NODES)?;
    let is_so = are_walked(rt.alloc(), &plan.lp)?;
    drop(plan);
    assert!(rt; is_so);
    Ok(())
}

/// The copy of the plan at a root.
fn copied(alloc: Global, plan: &PlanCopy) -> Result<PlanCopy, Fail> {
    check_tree(alloc, plan.root, &plan.lp, &plan.ex)?;
    Ok(renumbered(alloc, plan.root, &plan.lp, &plan.ex)?)
}

/// The text of that copy.
fn copied_text(alloc: Global, plan: &PlanCopy) -> Result<String, Fail> {
    let copy = copied(alloc, plan)?;
    Ok(write_plan(alloc, &copy)?)
}

#[test]
fn copies_are_numbered_in_walk_order(rt: HostRuntime) -> Result<(), Fail> {
    let plan = read(rt.alloc(), NODES)?;
    let text = copied_text(rt.alloc(), &plan)?;
    drop(plan);
    assert!(rt; text.as_str() == PLAN);
    Ok(())
}

/// The text of a node by itself.
fn node_text(alloc: Global, node: IR) -> Result<String, AllocError> {
    let mut lp = Arena::new(alloc);
    lp.add(node)?;
    let plan = PlanCopy {
        root: Node(0),
        lp,
        ex: Arena::new(alloc),
    };
    write_plan(alloc, &plan)
}

/// Refuses where the node doesn't list so many expressions, or hasn't so many inputs.
fn check_counts(
    alloc: Global,
    node: &IR,
    exprs: &[ExprIR],
    inputs: &[Node],
) -> Result<(), AllocError>
    ensures exprs { IfOk result (λ _. length exprs.now ≡ length (listed_exprs_of node.now)) }
    ensures inputs { IfOk result (λ _. length inputs.now ≡ length (inputs_of node.now)) }
{
    let fit = node.get_exprs(alloc)?.len() == exprs.len()
        && node.get_inputs_vec(alloc)?.len() == inputs.len();
    if fit { Ok(()) } else { Err(AllocError) }
}

/// A node with the expressions of another, over the inputs of a third one.
fn put_back(alloc: Global, node: &IR, of: &IR, over: &IR) -> Result<IR, AllocError> {
    let exprs = of.get_exprs(alloc)?;
    let inputs = over.get_inputs_vec(alloc)?;
    check_counts(alloc, node, exprs.as_slice(), inputs.as_slice())?;
    node.with_exprs_and_input(alloc, exprs, inputs)
}

/// Whether a node with the expressions of another, over the inputs of a third one, has this text.
fn is_put_back(
    alloc: Global,
    node: &IR,
    of: &IR,
    over: &IR,
    wanted: &str,
) -> Result<bool, AllocError> {
    let text = node_text(alloc, put_back(alloc, node, of, over)?)?;
    Ok(text.as_str() == wanted)
}

/// Whether the nodes that are put back have the texts that are told.
fn are_put_back(alloc: Global, lp: &Arena<IR>) -> Result<bool, AllocError> {
    for (number, of, over, wanted) in COPIES {
        let is_so = match (node_at(lp, number), node_at(lp, of), node_at(lp, over)) {
            (Some(node), Some(of), Some(over)) => is_put_back(alloc, node, of, over, wanted)?,
            _ => false,
        };
        if !is_so {
            return Ok(false);
        }
    }
    Ok(true)
}

#[test]
fn nodes_are_put_back_over_other_parts(rt: HostRuntime) -> Result<(), Fail> {
    let plan = read(rt.alloc(), NODES)?;
    let is_so = are_put_back(rt.alloc(), &plan.lp)?;
    drop(plan);
    assert!(rt; is_so);
    Ok(())
}

/// Whether a copy of the filter has its text.
fn is_copied(alloc: Global, lp: &Arena<IR>) -> Result<bool, AllocError> {
    match node_at(lp, 3) {
        Some(node) => {
            let text = node_text(alloc, node.try_clone(alloc)?)?;
            Ok(text.as_str() == FILTER)
        }
        None => Ok(false),
    }
}

#[test]
fn nodes_are_copied(rt: HostRuntime) -> Result<(), Fail> {
    let plan = read(rt.alloc(), NODES)?;
    let is_so = is_copied(rt.alloc(), &plan.lp)?;
    drop(plan);
    assert!(rt; is_so);
    Ok(())
}

/// A comparison of two expressions.
fn greater(left: Node, right: Node) -> AExpr
    ensures { operands_of result ≡ left ∷ right ∷ [] }
{
    AExpr::BinaryExpr {
        left,
        op: Operator::Gt,
        right,
    }
}

#[test]
fn comparisons_are_put_over_other_operands(rt: HostRuntime) -> Result<(), Fail> {
    let expr = greater(Node(1), Node(2)).with_operands(rt.alloc(), &[Node(8), Node(9)])?;
    assert!(rt; expr == greater(Node(8), Node(9)));
    Ok(())
}
