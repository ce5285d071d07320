//! Calls of the builder on the plan at a root. A node that stands there says what is put on its inputs.
ghost use Rattle.std.specs.Prelude.{◌≡◌, IfOk, OnOk};
ghost use Rattle.plan_expr.specs.Operands.{IsExpr};
ghost use Rattle.plan_ir.specs.declared.ir.IR.TheVariants.{MapFunction};
ghost use Rattle.plan_ir.specs.Parts.{IsPlan};
ghost use Rattle.plan_meaning.specs.PlanAt.{plan_at};
ghost use Rattle.plan_meaning.specs.Steps.{IsValid};
ghost use Rattle.plan_builder.specs.Builds.{IsBuilt, MayFollow, own_expr};
ghost use Rattle.plan_builder.specs.Picks.{IsColumn};

use plan_builder::IRBuilder;
use plan_core::{Arena, Items, Node, PlSmallStr, PolarsError, PolarsResult, Schema, TryClone};
use plan_expr::{AExpr, ExprIR};
use plan_ir::{FunctionIR, IR};
use plan_tree::depth_of;
use std::alloc::{AllocError, Global};

/// A call of the builder.
#[derive(Clone, Copy)]
pub enum Call {
    /// Of a slice that is put on a copy of the node.
    Slice,
    /// Of a selection.
    Select,
    /// Of an addition.
    Add,
    /// Of an addition of an expression under its own name.
    AddByItself,
    /// Of a function.
    Function,
    /// Of a grouping.
    Group,
    /// Of a join.
    Join,
}

/// The columns once a projection to some is put on the plan at a root.
pub fn projected(
    alloc: Global,
    names: &[PlSmallStr],
    root: Node,
    lp: &mut Arena<IR>,
    ex: &Arena<AExpr>,
) -> PolarsResult<Schema>
    requires plan { IsPlan lp.old ex.now root }
    requires valid { IsValid (plan_at lp.old ex.now root) }
{
    let mut builder = IRBuilder::new(root, ex, lp);
    builder.project_simple(alloc, names)?;
    Ok(builder.schema(alloc)?)
}

/// Whether a node is a projection of another.
fn is_projection(node: &IR, of: Node) -> bool {
    match node {
        IR::SimpleProjection { input, .. } => *input == of,
        _ => false,
    }
}

/// Refuses where no column stands at a number.
fn check_column(node: Node, ex: &Arena<AExpr>) -> PolarsResult<()>
    ensures { IfOk result (λ _. IsColumn ex.now node) }
{
    if node.0 >= ex.len() {
        return Err(PolarsError::OutOfMemory);
    }
    match ex.get(node) {
        AExpr::Column(_) => Ok(()),
        _ => Err(PolarsError::OutOfMemory),
    }
}

/// The columns once a projection by the number of a column is put on the plan at a root, stands last, and is handed out. Refuses
/// where it doesn't, and where no column stands at the number.
pub fn projected_at(
    alloc: Global,
    column: Node,
    root: Node,
    lp: &mut Arena<IR>,
    ex: &Arena<AExpr>,
) -> PolarsResult<Schema>
    requires plan { IsPlan lp.old ex.now root }
    requires valid { IsValid (plan_at lp.old ex.now root) }
{
    let last = Node(lp.len());
    check_column(column, ex)?;
    let mut builder = IRBuilder::new(root, ex, lp);
    builder.project_simple_nodes(alloc, &[column])?;
    let columns = builder.schema(alloc)?;
    let is_last = builder.node() == last;
    let is_over = is_projection(&builder.build(), root);
    if is_last && is_over {
        Ok(columns)
    } else {
        Err(PolarsError::OutOfMemory)
    }
}

/// The columns of a slice on a copy of the node at a root.
fn sliced(
    alloc: Global,
    root: Node,
    lp: &mut Arena<IR>,
    ex: &Arena<AExpr>,
) -> Result<Schema, AllocError>
    requires plan { IsPlan lp.old ex.now root }
    requires valid { IsValid (plan_at lp.old ex.now root) }
{
    let frame = lp.get(root).try_clone(alloc)?;
    let mut builder = IRBuilder::from_lp(lp, ex, frame)?;
    let slice = IR::Slice {
        input: builder.node(),
        offset: 1,
        len: 5,
    };
    builder.add_alp(slice)?;
    builder.schema(alloc)
}

/// The columns of the selection at a root, put on its input. Refuses another node.
fn selected(
    alloc: Global,
    root: Node,
    lp: &mut Arena<IR>,
    ex: &Arena<AExpr>,
) -> Result<Schema, AllocError>
    requires plan { IsPlan lp.old ex.now root }
    requires valid { IsValid (plan_at lp.old ex.now root) }
{
    match lp.get(root) {
        IR::Select {
            input,
            expr,
            options,
            ..
        } => {
            let (input, options) = (*input, *options);
            let exprs = expr.try_clone(alloc)?;
            let mut builder = IRBuilder::new(input, ex, lp);
            builder.project(alloc, exprs, options)?;
            builder.schema(alloc)
        }
        _ => Err(AllocError),
    }
}

/// The columns of the addition at a root, put on its input. Refuses another node.
fn added(
    alloc: Global,
    root: Node,
    lp: &mut Arena<IR>,
    ex: &Arena<AExpr>,
) -> Result<Schema, AllocError>
    requires plan { IsPlan lp.old ex.now root }
    requires valid { IsValid (plan_at lp.old ex.now root) }
{
    match lp.get(root) {
        IR::HStack {
            input,
            exprs,
            options,
            ..
        } => {
            let (input, options) = (*input, *options);
            let exprs = exprs.try_clone(alloc)?;
            let mut builder = IRBuilder::new(input, ex, lp);
            builder.with_columns(alloc, exprs, options)?;
            builder.schema(alloc)
        }
        _ => Err(AllocError),
    }
}

/// Refuses where no expression stands at a number.
fn check_expr(alloc: Global, node: Node, ex: &Arena<AExpr>) -> Result<(), AllocError>
    ensures { IfOk result (λ _. IsExpr ex.now node) }
{
    match depth_of(alloc, ex, node)? {
        Some(_) => Ok(()),
        None => Err(AllocError),
    }
}

/// The number of an expression that has the name that it gives itself. Refuses another one.
fn own_node(alloc: Global, expr: &ExprIR, ex: &Arena<AExpr>) -> Result<Node, AllocError>
    ensures { IfOk result (λ node. own_expr ex.now node ≡ expr.now) }
{
    check_expr(alloc, expr.node, ex)?;
    match ExprIR::from_node(alloc, expr.node, ex) {
        Ok(own) => {
            if own == *expr {
                Ok(expr.node)
            } else {
                Err(AllocError)
            }
        }
        Err(_) => Err(AllocError),
    }
}

/// The columns of the addition of one expression at a root, put on its input by the name that this gives itself. Refuses another node.
fn added_by_itself(
    alloc: Global,
    root: Node,
    lp: &mut Arena<IR>,
    ex: &Arena<AExpr>,
) -> Result<Schema, AllocError>
    requires plan { IsPlan lp.old ex.now root }
    requires valid { IsValid (plan_at lp.old ex.now root) }
{
    match lp.get(root) {
        IR::HStack {
            input,
            exprs,
            options,
            ..
        } => match exprs.as_slice() {
            [expr] => {
                let (input, options) = (*input, *options);
                let node = own_node(alloc, expr, ex)?;
                let mut builder = IRBuilder::new(input, ex, lp);
                builder.with_columns_simple(alloc, &[node], options)?;
                builder.schema(alloc)
            }
            _ => Err(AllocError),
        },
        _ => Err(AllocError),
    }
}

/// Puts a function on the plan of a builder, by the call of its name. Refuses one without a call.
fn put(builder: &mut IRBuilder, function: FunctionIR) -> Result<(), AllocError>
    requires { MayFollow builder.old.lp_arena.now builder.old.expr_arena.now (MapFunction builder.old.root function) }
    ensures { OnOk result (IsBuilt builder.new.lp_arena.now builder.new.expr_arena.now builder.new.root) }
{
    match function {
        FunctionIR::RowIndex { name, offset } => builder.row_index(name, offset),
        FunctionIR::Unpivot { args } => builder.unpivot(args),
        FunctionIR::Explode { columns } => builder.explode(columns),
        _ => Err(AllocError),
    }
}

/// The columns of the function at a root, put on its input. Refuses another node.
fn applied(
    alloc: Global,
    root: Node,
    lp: &mut Arena<IR>,
    ex: &Arena<AExpr>,
) -> Result<Schema, AllocError>
    requires plan { IsPlan lp.old ex.now root }
    requires valid { IsValid (plan_at lp.old ex.now root) }
{
    match lp.get(root) {
        IR::MapFunction { input, function } => {
            let input = *input;
            let function = function.try_clone(alloc)?;
            let mut builder = IRBuilder::new(input, ex, lp);
            put(&mut builder, function)?;
            builder.schema(alloc)
        }
        _ => Err(AllocError),
    }
}

/// Copies of two lists.
fn both(
    alloc: Global,
    first: &Items<ExprIR>,
    second: &Items<ExprIR>,
) -> Result<(Items<ExprIR>, Items<ExprIR>), AllocError>
    ensures { IfOk result (λ copies. (copies.0 ≡ first.now) × (copies.1 ≡ second.now)) }
{
    let first = first.try_clone(alloc)?;
    let second = second.try_clone(alloc)?;
    Ok((first, second))
}

/// The columns of the grouping at a root, put on its input. Refuses another node.
fn grouped(
    alloc: Global,
    root: Node,
    lp: &mut Arena<IR>,
    ex: &Arena<AExpr>,
) -> Result<Schema, AllocError>
    requires plan { IsPlan lp.old ex.now root }
    requires valid { IsValid (plan_at lp.old ex.now root) }
{
    match lp.get(root) {
        IR::GroupBy {
            input,
            keys,
            aggs,
            maintain_order,
            options,
            ..
        } => {
            let (input, ordered, options) = (*input, *maintain_order, *options);
            let exprs = both(alloc, keys, aggs)?;
            let mut builder = IRBuilder::new(input, ex, lp);
            builder.group_by(alloc, exprs.0, exprs.1, ordered, options)?;
            builder.schema(alloc)
        }
        _ => Err(AllocError),
    }
}

/// The columns of the join at a root, put on its inputs. Refuses another node.
fn joined(
    alloc: Global,
    root: Node,
    lp: &mut Arena<IR>,
    ex: &Arena<AExpr>,
) -> Result<Schema, AllocError>
    requires plan { IsPlan lp.old ex.now root }
    requires valid { IsValid (plan_at lp.old ex.now root) }
{
    match lp.get(root) {
        IR::Join {
            input_left,
            input_right,
            left_on,
            right_on,
            options,
            ..
        } => {
            let (left, right) = (*input_left, *input_right);
            let options = options.try_clone(alloc)?;
            let keys = both(alloc, left_on, right_on)?;
            let mut builder = IRBuilder::new(left, ex, lp);
            builder.join(alloc, right, keys.0, keys.1, options)?;
            builder.schema(alloc)
        }
        _ => Err(AllocError),
    }
}

/// The columns once a call has put its node. Refuses a call that the node at the root isn't one of.
pub fn made(
    alloc: Global,
    call: Call,
    root: Node,
    lp: &mut Arena<IR>,
    ex: &Arena<AExpr>,
) -> Result<Schema, AllocError>
    requires plan { IsPlan lp.old ex.now root }
    requires valid { IsValid (plan_at lp.old ex.now root) }
{
    match call {
        Call::Slice => sliced(alloc, root, lp, ex),
        Call::Select => selected(alloc, root, lp, ex),
        Call::Add => added(alloc, root, lp, ex),
        Call::AddByItself => added_by_itself(alloc, root, lp, ex),
        Call::Function => applied(alloc, root, lp, ex),
        Call::Group => grouped(alloc, root, lp, ex),
        Call::Join => joined(alloc, root, lp, ex),
    }
}
