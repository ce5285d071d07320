//! Copies of expressions: the names of their leaves, and what stays.
ghost use Rattle.std.specs.Prelude.{IfOk, IsTrue};
ghost use Rattle.plan_expr.specs.Operands.{IsExpr};

use crate::read::{Texts, read, texts};
use plan_core::{Arena, Node};
use plan_expr::{AExpr, aexpr_to_leaf_names};
use plan_ir::PlanCopy;
use plan_pruned::copy_renamed;
use plan_text::write_plan;
use plan_tree::depth_of;
use std::alloc::{AllocError, Global};
use std::test::Fail;

/// `a + b` at 2, and at 8 a choice by a between the total of `a + b` over the rows with the same c, and a literal.
const EXPRS: &str =
    r#"{"root":0,"nodes":[],"exprs":[{"op":"Column","name":"a"},{"op":"Column","name":"b"},{"op":"BinaryExpr","operator":"Plus","left":0,"right":1},{"op":"Agg","kind":"Sum","input":2},{"op":"Column","name":"c"},{"op":"Window","function":3,"partition_by":[4]},{"op":"Literal","type":"Int64","value":1},{"op":"Column","name":"a"},{"op":"Ternary","predicate":7,"truthy":5,"falsy":6}],"flags":0,"shared":false,"tables":null}"#;

/// The column a under its own name as an alias, at 1.
const ALIAS: &str =
    r#"{"root":0,"nodes":[],"exprs":[{"op":"Column","name":"a"},{"op":"Alias","input":0,"name":"a"}],"flags":0,"shared":false,"tables":null}"#;

/// That, and behind it a copy, over b, that keeps its name.
const ALIASES: &str =
    r#"{"exprs":[{"name":"a","op":"Column"},{"input":0,"name":"a","op":"Alias"},{"name":"b","op":"Column"},{"input":2,"name":"a","op":"Alias"}],"nodes":[],"root":0}"#;

/// Renamings of the leaves of an expression: its number, from which names to which, how many entries are copied, and what is told then.
const RENAMINGS: [(usize, Texts, Texts, usize, &str); 7] = [
    (2, &["a"], &["b"], 3, "b,b,;a,b,"),
    (2, &["a", "b"], &["b", "a"], 3, "b,a,;a,b,"),
    (2, &["a", "a"], &["c", "d"], 3, "c,b,;a,b,"),
    (2, &["z"], &["a"], 3, "a,b,;a,b,"),
    (2, &[], &[], 3, "a,b,;a,b,"),
    (2, &["b"], &["c"], 3, "a,c,;a,b,"),
    (8, &["a", "c"], &["x", "y"], 9, "x,b,y,x,;a,b,c,a,"),
];

/// Whether an expression stands at a number.
fn stands(alloc: Global, node: Node, ex: &Arena<AExpr>) -> Result<bool, AllocError>
    ensures { IfOk result (λ b. IsTrue b → IsExpr ex.now node) }
{
    match depth_of(alloc, ex, node)? {
        Some(_) => Ok(true),
        None => Ok(false),
    }
}

/// The names of the leaves, in walk order, each with a comma behind it; `none` where no expression stands.
fn leaves(alloc: Global, node: Node, ex: &Arena<AExpr>) -> Result<String, AllocError> {
    if !stands(alloc, node, ex)? {
        return String::from_str(alloc, "none");
    }
    let mut told = String::new(alloc);
    for name in aexpr_to_leaf_names(alloc, node, ex)?.as_slice() {
        told.push_str(name.as_str())?;
        told.push_str(",")?;
    }
    Ok(told)
}

/// A copy with each name of the first list under that at its place in the second one; none where there is no expression, or
/// the lists differ in length.
fn copied(
    alloc: Global,
    node: Node,
    ex: &mut Arena<AExpr>,
    from: Texts,
    to: Texts,
) -> Result<Option<Node>, AllocError> {
    let from = texts(alloc, from)?;
    let to = texts(alloc, to)?;
    if from.len() != to.len() || !stands(alloc, node, ex)? {
        return Ok(None);
    }
    let copy = copy_renamed(alloc, node, ex, from.as_slice(), to.as_slice())?;
    Ok(Some(copy))
}

/// The leaves of the copy, and, behind a semicolon, those of what was copied.
fn told(
    alloc: Global,
    node: Node,
    ex: &mut Arena<AExpr>,
    from: Texts,
    to: Texts,
) -> Result<String, AllocError> {
    let Some(copy) = copied(alloc, node, ex, from, to)? else {
        return String::from_str(alloc, "none");
    };
    let mut told = leaves(alloc, copy, ex)?;
    told.push_str(";")?;
    told.push_str(leaves(alloc, node, ex)?.as_str())?;
    Ok(told)
}

/// Whether that is told of an expression, which is copied whole.
fn is_told(
    alloc: Global,
    node: Node,
    ex: &mut Arena<AExpr>,
    renaming: (Texts, Texts),
    count: usize,
    wanted: &str,
) -> Result<bool, AllocError> {
    let end = ex.len().saturating_add(count);
    let text = told(alloc, node, ex, renaming.0, renaming.1)?;
    Ok(text.as_str() == wanted && ex.len() == end)
}

/// Whether all that is told of the expressions.
fn are_told(alloc: Global, ex: &mut Arena<AExpr>) -> Result<bool, AllocError> {
    for (number, from, to, count, wanted) in RENAMINGS {
        if !is_told(alloc, Node(number), ex, (from, to), count, wanted)? {
            return Ok(false);
        }
    }
    Ok(true)
}

#[test]
fn copies_have_other_leaves(rt: HostRuntime) -> Result<(), Fail> {
    let mut plan = read(rt.alloc(), EXPRS)?;
    let is_so = are_told(rt.alloc(), &mut plan.ex)?;
    drop(plan);
    assert!(rt; is_so);
    Ok(())
}

/// Whether the copy of the alias stands at 3, and nothing else is new.
fn is_kept(alloc: Global, plan: &mut PlanCopy) -> Result<bool, AllocError> {
    let copy = copied(alloc, Node(1), &mut plan.ex, &["a"], &["b"])?;
    let text = write_plan(alloc, plan)?;
    Ok(copy == Some(Node(3)) && text.as_str() == ALIASES)
}

#[test]
fn an_alias_keeps_its_name(rt: HostRuntime) -> Result<(), Fail> {
    let mut plan = read(rt.alloc(), ALIAS)?;
    let is_so = is_kept(rt.alloc(), &mut plan)?;
    drop(plan);
    assert!(rt; is_so);
    Ok(())
}
