//! Walks, names and tests of a small arena.
ghost use Rattle.std.specs.Prelude.{IfOk};
ghost use Rattle.std.specs.Bool.{OnTrue};
ghost use Rattle.plan_expr.specs.Operands.{IsExpr};

use plan_core::{Arena, ColumnNode, Node, PlSmallStr, TryClone};
use plan_expr::{
    AExpr, ArenaExprIter, ExprIR, FunctionExpr, IRAggExpr, LiteralValue, Operator, OutputName,
    aexpr_output_name, aexpr_to_leaf_name, aexpr_to_leaf_names, aexpr_to_leaf_names_iter,
    column_node_to_name, has_aexpr, has_aexpr_literal, has_aexpr_window, is_elementwise, is_scalar,
    may_be_named, output_name,
};
use plan_options::ApplyOptions;
use plan_samples::{links, names};
use plan_tree::depth_of;
use std::alloc::{AllocError, Global};

/// Adds a column.
fn column(alloc: Global, name: &str, ex: &mut Arena<AExpr>) -> Result<(), AllocError> {
    let name = PlSmallStr::new(alloc, name)?;
    ex.add(AExpr::Column(name))?;
    Ok(())
}

/// Adds a function of what stands at some numbers.
fn function(
    alloc: Global,
    function: FunctionExpr,
    inputs: &[usize],
    ex: &mut Arena<AExpr>,
) -> Result<(), AllocError> {
    let input = links(alloc, inputs)?;
    ex.add(AExpr::Function {
        input,
        function,
        options: function.options(),
    })?;
    Ok(())
}

/// Adds the aggregate of the expression at 2 over what stands at 3.
fn window(alloc: Global, ex: &mut Arena<AExpr>) -> Result<(), AllocError> {
    let partition_by = links(alloc, &[3])?;
    ex.add(AExpr::Window {
        function: Node(1),
        partition_by,
    })?;
    ex.add(AExpr::Agg(IRAggExpr::Sum(Node(2))))?;
    Ok(())
}

/// Adds the choice between 5 and 7 by 8.
fn choice(ex: &mut Arena<AExpr>) -> Result<(), AllocError> {
    ex.add(AExpr::Ternary {
        predicate: Node(8),
        truthy: Node(5),
        falsy: Node(7),
    })?;
    Ok(())
}

/// Adds a + a at 12, over 13 and 14, and the literal 1 under the name z at 15.
fn sum(alloc: Global, ex: &mut Arena<AExpr>) -> Result<(), AllocError> {
    ex.add(AExpr::BinaryExpr {
        left: Node(13),
        op: Operator::Plus,
        right: Node(14),
    })?;
    column(alloc, "a", ex)?;
    column(alloc, "a", ex)?;
    let name = PlSmallStr::new(alloc, "z")?;
    ex.add(AExpr::Alias(Node(16), name))?;
    ex.add(AExpr::Literal(LiteralValue::Int64(1)))?;
    Ok(())
}

/// Adds expressions: 0 is sum(a) over b; 4 chooses between not(c), with its 5 and 6, and len by the truth value at 8; then functions,
/// and the sum.
fn fill(alloc: Global, ex: &mut Arena<AExpr>) -> Result<(), AllocError> {
    window(alloc, ex)?;
    column(alloc, "a", ex)?;
    column(alloc, "b", ex)?;
    choice(ex)?;
    function(alloc, FunctionExpr::Not, &[6], ex)?;
    column(alloc, "c", ex)
}

/// Adds the rest of these expressions.
fn fill_rest(alloc: Global, ex: &mut Arena<AExpr>) -> Result<(), AllocError> {
    ex.add(AExpr::Len)?;
    ex.add(AExpr::Literal(LiteralValue::Boolean(true)))?;
    function(alloc, FunctionExpr::CumSum, &[10], ex)?;
    column(alloc, "d", ex)?;
    function(alloc, FunctionExpr::Reverse, &[], ex)?;
    sum(alloc, ex)
}

/// These expressions.
fn kinds(alloc: Global) -> Result<Arena<AExpr>, AllocError> {
    let mut ex = Arena::new(alloc);
    fill(alloc, &mut ex)?;
    fill_rest(alloc, &mut ex)?;
    Ok(ex)
}

/// What an expression tells.
struct Told {
    /// Its number.
    node: usize,
    /// The numbers of a walk over it.
    walk: &'static [usize],
    /// The names of its leaves, with repeats.
    leaves: &'static [&'static str],
    /// Its name.
    name: &'static str,
    /// The kind of that name.
    kind: &'static str,
    /// Whether it is scalar, works row by row, and has a window, a literal and a column.
    tests: [bool; 5],
}

const TOLD: &[Told] = &[
    Told {
        node: 0,
        walk: &[0, 1, 2, 3],
        leaves: &["a", "b"],
        name: "a",
        kind: "column",
        tests: [false, false, true, false, true],
    },
    Told {
        node: 1,
        walk: &[1, 2],
        leaves: &["a"],
        name: "a",
        kind: "column",
        tests: [true, false, false, false, true],
    },
    // A choice comes before its predicate.
    Told {
        node: 4,
        walk: &[4, 5, 6, 7, 8],
        leaves: &["c"],
        name: "c",
        kind: "column",
        tests: [false, false, false, true, true],
    },
    Told {
        node: 5,
        walk: &[5, 6],
        leaves: &["c"],
        name: "c",
        kind: "column",
        tests: [false, true, false, false, true],
    },
    Told {
        node: 7,
        walk: &[7],
        leaves: &[],
        name: "len",
        kind: "literal",
        tests: [true, false, false, false, false],
    },
    Told {
        node: 8,
        walk: &[8],
        leaves: &[],
        name: "literal",
        kind: "literal",
        tests: [true, true, false, true, false],
    },
    Told {
        node: 9,
        walk: &[9, 10],
        leaves: &["d"],
        name: "d",
        kind: "column",
        tests: [false, false, false, false, true],
    },
    Told {
        node: 12,
        walk: &[12, 13, 14],
        leaves: &["a", "a"],
        name: "a",
        kind: "column",
        tests: [false, true, false, false, true],
    },
    Told {
        node: 15,
        walk: &[15, 16],
        leaves: &[],
        name: "z",
        kind: "alias",
        tests: [true, true, false, true, false],
    },
    Told {
        node: 16,
        walk: &[16],
        leaves: &[],
        name: "literal",
        kind: "literal",
        tests: [true, true, false, true, false],
    },
];

/// Whether an expression stands at the number.
fn stands(alloc: Global, node: Node, ex: &Arena<AExpr>) -> Result<bool, AllocError>
    ensures { IfOk result (λ stands. OnTrue stands (IsExpr ex.now node)) }
{
    match depth_of(alloc, ex, node)? {
        Some(_) => Ok(true),
        None => Ok(false),
    }
}

/// Whether a walk has these numbers.
fn has_walk(
    alloc: Global,
    node: Node,
    ex: &Arena<AExpr>,
    wanted: &[usize],
) -> Result<bool, AllocError>
    requires { IsExpr ex.now node }
{
    let mut left = wanted.iter();
    for (met, _) in ex.iter(alloc, node)? {
        if left.next() != Some(&met.0) {
            return Ok(false);
        }
    }
    Ok(left.next().is_none())
}

/// Whether a walk over the leaves has these names.
fn has_leaves(
    alloc: Global,
    node: Node,
    ex: &Arena<AExpr>,
    wanted: &[&str],
) -> Result<bool, AllocError>
    requires { IsExpr ex.now node }
{
    let mut left = wanted.iter();
    for name in aexpr_to_leaf_names_iter(alloc, node, ex)? {
        if left.next() != Some(&name.as_str()) {
            return Ok(false);
        }
    }
    Ok(left.next().is_none())
}

/// Whether these names are listed.
fn lists_leaves(
    alloc: Global,
    node: Node,
    ex: &Arena<AExpr>,
    wanted: &[&str],
) -> Result<bool, AllocError>
    requires { IsExpr ex.now node }
{
    let found = aexpr_to_leaf_names(alloc, node, ex)?;
    Ok(found.as_slice() == names(alloc, wanted)?.as_slice())
}

/// Whether the first leaf has this name.
fn has_first_leaf(
    alloc: Global,
    node: Node,
    ex: &Arena<AExpr>,
    wanted: Option<&str>,
) -> Result<bool, AllocError>
    requires { IsExpr ex.now node }
{
    let found = aexpr_to_leaf_name(alloc, node, ex)?;
    Ok(found.as_ref().map(|name| name.as_str()) == wanted)
}

/// Whether an expression gives itself this name.
fn has_name(alloc: Global, node: Node, ex: &Arena<AExpr>, wanted: &str) -> bool
    requires { IsExpr ex.now node }
{
    match aexpr_output_name(alloc, node, ex) {
        Ok(name) => name.as_str() == wanted,
        Err(_) => false,
    }
}

/// The kind of a name.
fn kind_of(name: &OutputName) -> &'static str {
    match name {
        OutputName::ColumnLhs(_) => "column",
        OutputName::LiteralLhs(_) => "literal",
        OutputName::Alias(_) => "alias",
        OutputName::None => "none",
    }
}

/// Whether an expression is stored under this name of this kind.
fn is_stored(expr: &ExprIR, wanted: &str, kind: &str) -> bool {
    let name = expr.output_name_inner();
    let is_alias = expr.has_alias() && expr.get_alias().is_some();
    output_name(name) == wanted && kind_of(name) == kind && is_alias == (kind == "alias")
}

/// The same of the expression at a number.
fn has_kind(alloc: Global, node: Node, ex: &Arena<AExpr>, wanted: &str, kind: &str) -> bool
    requires { IsExpr ex.now node }
{
    match ExprIR::from_node(alloc, node, ex) {
        Ok(expr) => is_stored(&expr, wanted, kind),
        Err(_) => false,
    }
}

/// Whether an expression is scalar, works row by row, and has a window, a literal and a column.
fn tests(node: Node, ex: &Arena<AExpr>) -> [bool; 5]
    requires { IsExpr ex.now node }
{
    let column = has_aexpr(node, ex, |e: &AExpr| -> bool {
        matches!(e, AExpr::Column(_))
    });
    [
        is_scalar(node, ex),
        is_elementwise(node, ex),
        has_aexpr_window(node, ex),
        has_aexpr_literal(node, ex),
        column,
    ]
}

/// Whether an expression has the walk, the leaves by a walk, by a list and as the first one, the name, its kind and the tests that it
/// should have.
fn answers(
    alloc: Global,
    node: Node,
    ex: &Arena<AExpr>,
    told: &Told,
) -> Result<[bool; 7], AllocError>
    requires { IsExpr ex.now node }
{
    Ok([
        has_walk(alloc, node, ex, told.walk)?,
        has_leaves(alloc, node, ex, told.leaves)?,
        lists_leaves(alloc, node, ex, told.leaves)?,
        has_first_leaf(alloc, node, ex, told.leaves.first().copied())?,
        has_name(alloc, node, ex, told.name),
        has_kind(alloc, node, ex, told.name, told.kind),
        tests(node, ex) == told.tests,
    ])
}

/// Whether an expression tells what it should.
fn is_told(alloc: Global, ex: &Arena<AExpr>, told: &Told) -> Result<bool, AllocError> {
    let node = Node(told.node);
    if !stands(alloc, node, ex)? {
        return Ok(false);
    }
    Ok(answers(alloc, node, ex, told)? == [true; 7])
}

/// The first number of an expression that tells something else.
fn other(alloc: Global, ex: &Arena<AExpr>) -> Result<Option<usize>, AllocError> {
    for told in TOLD {
        if !is_told(alloc, ex, told)? {
            return Ok(Some(told.node));
        }
    }
    Ok(None)
}

/// Whether the name of an expression is refused.
fn has_no_name(alloc: Global, node: Node, ex: &Arena<AExpr>) -> Result<bool, AllocError> {
    if !stands(alloc, node, ex)? {
        return Ok(false);
    }
    Ok(aexpr_output_name(alloc, node, ex).is_err())
}

/// Whether an expression may be put out under this name of its own.
fn may_be_called(
    alloc: Global,
    node: Node,
    ex: &Arena<AExpr>,
    name: &OutputName,
) -> Result<bool, AllocError> {
    if !stands(alloc, node, ex)? {
        return Ok(false);
    }
    Ok(may_be_named(name, node, ex))
}

/// Whether a number of rows may be put out under a name of its own.
fn rows_may_be_called(alloc: Global, ex: &Arena<AExpr>) -> Result<bool, AllocError> {
    let name = OutputName::Alias(PlSmallStr::new(alloc, "n")?);
    may_be_called(alloc, Node(7), ex, &name)
}

/// Whether all expressions tell what they should, a function of nothing has no name, and a number of rows may have another one.
fn kinds_answer(alloc: Global) -> Result<[bool; 3], AllocError> {
    let ex = kinds(alloc)?;
    Ok([
        other(alloc, &ex)? == None,
        has_no_name(alloc, Node(11), &ex)?,
        rows_may_be_called(alloc, &ex)?,
    ])
}

/// An arena of the column a.
fn column_alone(alloc: Global) -> Result<Arena<AExpr>, AllocError> {
    let mut ex = Arena::new(alloc);
    column(alloc, "a", &mut ex)?;
    Ok(ex)
}

/// Whether the first expression is the column a.
fn is_a(ex: &Arena<AExpr>) -> bool {
    if ex.len() != 1 {
        return false;
    }
    match ex.get(Node(0)) {
        AExpr::Column(_) => column_node_to_name(ColumnNode(Node(0)), ex).as_str() == "a",
        _ => false,
    }
}

/// Takes the first expression, and tells whether a number of rows stands there then.
fn leaves_rows(ex: &mut Arena<AExpr>) -> bool {
    if ex.len() != 1 {
        return false;
    }
    let _ = ex.take(Node(0));
    *ex.get(Node(0)) == AExpr::Len
}

/// Whether an arena holds a column, and a number of rows once that is taken.
fn taken(alloc: Global) -> Result<[bool; 2], AllocError> {
    let mut ex = column_alone(alloc)?;
    Ok([is_a(&ex), leaves_rows(&mut ex)])
}

/// A window over what stands at 3.
fn over_three(alloc: Global) -> Result<AExpr, AllocError> {
    let partition_by = links(alloc, &[3])?;
    Ok(AExpr::Window {
        function: Node(1),
        partition_by,
    })
}

/// Whether an expression is its copy.
fn is_copied(alloc: Global, expr: &AExpr) -> Result<bool, AllocError> {
    Ok(expr.try_clone(alloc)? == *expr)
}

/// Whether a window is its copy and no column, and has a second operand.
fn copied(alloc: Global) -> Result<[bool; 3], AllocError> {
    let window = over_three(alloc)?;
    let is_no_column = window.column_name().is_none();
    let is_second = window.operand(1) == Some(Node(3));
    let is_same = is_copied(alloc, &window);
    drop(window);
    Ok([is_same?, is_no_column, is_second])
}

/// Whether a copy of a count stands over another operand.
fn is_moved(alloc: Global) -> Result<bool, AllocError> {
    let moved = AExpr::Agg(IRAggExpr::Count(Node(1), true)).with_operands(alloc, &[Node(9)])?;
    Ok(moved == AExpr::Agg(IRAggExpr::Count(Node(9), true)))
}

/// Whether functions work row by row.
fn by_rows() -> [bool; 3] {
    [
        FunctionExpr::Not.options().collect_groups == ApplyOptions::ElementWise,
        FunctionExpr::FillNull.options().is_elementwise(),
        FunctionExpr::CumSum.is_elementwise(),
    ]
}

#[test]
fn expressions_answer(rt: HostRuntime) {
    assert!(rt; kinds_answer(rt.alloc()) == Ok([true; 3]));
    assert!(rt; taken(rt.alloc()) == Ok([true; 2]));
    assert!(rt; copied(rt.alloc()) == Ok([true; 3]));
    assert!(rt; is_moved(rt.alloc()) == Ok(true));
    assert!(rt; by_rows() == [true, true, false]);
}
