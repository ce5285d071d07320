//! Which minterms above a cross join are keys of a join in its place, and which keys.
ghost use Rattle.std.specs.Prelude.{◌≡◌, ◌&&◌, [], ◌∷◌, false, true, IfNone, IfOk, IfSome, None, Some, is_some, option_map};
ghost use Rattle.std.specs.Option.{option_map_or};
ghost use Rattle.plan_core.specs.declared.arena.Node.{Node as NodeType};
ghost use Rattle.plan_core.specs.declared.data_type.DataType.TheVariants.{Int64};
ghost use Rattle.plan_expr.specs.declared.aexpr.AExpr.TheVariants.{BinaryExpr};
ghost use Rattle.plan_expr.specs.declared.operator.Operator.{Operator as OperatorType};
ghost use Rattle.plan_expr.specs.declared.operator.Operator.TheVariants.{Eq};
ghost use Rattle.plan_expr.specs.Exprs.{expr_at};
ghost use Rattle.plan_expr.specs.Operands.{IsExpr};
ghost use Rattle.plan_frame.specs.Exprs.{expr_type as type_of_expr, is_type};
ghost use Rattle.plan_join.specs.declared.origin.Side.{Side as SideType};
ghost use Rattle.plan_prune_parts.specs.Origins.{origin_in};
ghost use Rattle.plan_prune_parts.specs.Places.{TakePlace};
ghost use Rattle.plan_collapse_laws.specs.CrossKeys.{all_from, Crossed, equality_keys as equality_keys_of, inequality_keys as inequality_keys_of, inequality_of, is_equality, is_from, is_side, paired as paired_of, turned_round as turned};
ghost use Rattle.plan_collapse.specs.KeysAt.{AreOrigins, both_nodes, keys_by, pair_at};

use plan_core::{Arena, DataType, Node, Schema};
use plan_expr::{AExpr, Operator, aexpr_to_leaf_names_iter};
use plan_frame::expr_type;
use plan_join::Side;
use plan_prune_parts::Origins;
use std::alloc::{AllocError, Global};

/// The keys that a minterm above a cross join gives: its operands by their numbers, the left side's first, and the operator between
/// them. The right one has the names that the join puts out.
#[derive(Clone, Copy)]
pub struct KeyNodes {
    /// What compares them.
    pub op: Operator,
    /// The operand from the left side.
    pub left: Node,
    /// The operand from the right side.
    pub right: Node,
}

/// The side from which the columns so far and the one of this name come, where none so far or all come from one.
fn side_with(found: Option<Side>, origins: &Origins, name: &str) -> Option<Side>
    ensures { (side : SideType) → option_map_or (is_side side) result false ≡ (option_map_or (is_side side) found true && is_from side (origin_in origins.now name.now)) }
{
    match (found, origins.get(name)) {
        (None, Some((side, _))) => Some(side),
        (Some(Side::Left), Some((Side::Left, _))) => Some(Side::Left),
        (Some(Side::Right), Some((Side::Right, _))) => Some(Side::Right),
        _ => None,
    }
}

/// The side from which all columns come that an expression over a cross join reads, if it reads some and all come from one. Refuses
/// for want of memory alone.
fn side_of(
    alloc: Global,
    node: Node,
    origins: &Origins,
    ex: &Arena<AExpr>,
) -> Result<Option<Side>, AllocError>
    requires { IsExpr ex.now node }
    ensures { IfOk result (λ found. (j : Crossed) → AreOrigins j origins.now → (side : SideType) → all_from j side (expr_at ex.now node) ≡ option_map_or (is_side side) found false) }
{
    let mut found = None;
    for name in aexpr_to_leaf_names_iter(alloc, node, ex)? {
        found = side_with(found, origins, name.as_str());
        if found.is_none() {
            return Ok(None);
        }
    }
    Ok(found)
}

/// The operator of a comparison whose operands change places; another stays.
fn turned_round(op: Operator) -> Operator
    ensures { result ≡ turned op }
{
    match op {
        Operator::Lt => Operator::Gt,
        Operator::LtEq => Operator::GtEq,
        Operator::Gt => Operator::Lt,
        Operator::GtEq => Operator::LtEq,
        other => other,
    }
}

/// The keys of a comparison whose operands are from these sides.
fn pair_of(
    first: Option<Side>,
    second: Option<Side>,
    left: Node,
    op: Operator,
    right: Node,
) -> Option<KeyNodes>
    ensures { result ≡ keys_by first second left op right }
{
    match (first, second) {
        (Some(Side::Left), Some(Side::Right)) => Some(KeyNodes { op, left, right }),
        (Some(Side::Right), Some(Side::Left)) => Some(KeyNodes {
            op: turned_round(op),
            left: right,
            right: left,
        }),
        _ => None,
    }
}

/// The keys of a comparison over a cross join, where each operand is from one side alone; they stand in the place of the operands.
/// Refuses for want of memory alone.
fn paired(
    alloc: Global,
    left: Node,
    op: Operator,
    right: Node,
    origins: &Origins,
    ex: &Arena<AExpr>,
) -> Result<Option<KeyNodes>, AllocError>
    requires left { IsExpr ex.now left }
    requires right { IsExpr ex.now right }
    ensures keys { IfOk result (λ found. (j : Crossed) → AreOrigins j origins.now → option_map (pair_at ex.now j) found ≡ paired_of j op (expr_at ex.now left) (expr_at ex.now right)) }
    ensures place { IfOk result (λ found. IfSome found (λ k. TakePlace ex.now ex.now (both_nodes k) (left ∷ right ∷ []))) }
{
    let first = side_of(alloc, left, origins, ex)?;
    let second = side_of(alloc, right, origins, ex)?;
    Ok(pair_of(first, second, left, op, right))
}

/// The operands of an equality, if the expression is one.
fn equality(expr: &AExpr) -> Option<(Node, Node)>
    ensures some { IfSome result (λ operands. expr.now ≡ BinaryExpr operands.0 Eq operands.1) }
    ensures none { IfNone result ((l r : NodeType) (op : OperatorType) → expr.now ≡ BinaryExpr l op r → is_equality op ≡ false) }
{
    match expr {
        AExpr::BinaryExpr {
            left,
            op: Operator::Eq,
            right,
        } => Some((*left, *right)),
        _ => None,
    }
}

/// The operands of an inequality with the operator between them, if the expression is one.
fn inequality(expr: &AExpr) -> Option<(Node, Operator, Node)>
    ensures some { IfSome result (λ operands. expr.now ≡ BinaryExpr operands.0 operands.1 operands.2) }
    ensures unequal { IfSome result (λ operands. is_some (inequality_of operands.1) ≡ true) }
    ensures none { IfNone result ((l r : NodeType) (op : OperatorType) → expr.now ≡ BinaryExpr l op r → is_some (inequality_of op) ≡ false) }
{
    match expr {
        AExpr::BinaryExpr {
            left,
            op: op @ (Operator::Lt | Operator::LtEq | Operator::Gt | Operator::GtEq),
            right,
        } => Some((*left, *op, *right)),
        _ => None,
    }
}

/// The keys that an expression over a cross join gives, if it is an equality of which each operand is from one side alone; they stand in
/// its place. Refuses for want of memory alone.
pub fn equality_keys(
    alloc: Global,
    node: Node,
    origins: &Origins,
    ex: &Arena<AExpr>,
) -> Result<Option<KeyNodes>, AllocError>
    requires { IsExpr ex.now node }
    ensures keys { IfOk result (λ found. (j : Crossed) → AreOrigins j origins.now → option_map (pair_at ex.now j) found ≡ equality_keys_of j (expr_at ex.now node)) }
    ensures place { IfOk result (λ found. IfSome found (λ k. TakePlace ex.now ex.now (both_nodes k) (node ∷ []))) }
{
    match equality(ex.get(node)) {
        Some((left, right)) => paired(alloc, left, Operator::Eq, right, origins, ex),
        None => Ok(None),
    }
}

/// Keys, if the left one is a whole number over these columns.
fn whole_only(found: Option<KeyNodes>, left: &Schema, ex: &Arena<AExpr>) -> Option<KeyNodes>
    requires { IfSome found (λ k. IsExpr ex.now k.left) }
    ensures whole { IfSome result (λ k. (found ≡ Some k) × (is_type (type_of_expr (expr_at ex.now k.left) left.now) Int64 ≡ true)) }
    ensures none { IfNone result (IfSome found (λ k. is_type (type_of_expr (expr_at ex.now k.left) left.now) Int64 ≡ false)) }
{
    let keys = found?;
    match expr_type(keys.left, ex, left) {
        Some(DataType::Int64) => Some(keys),
        _ => None,
    }
}

/// The keys that an expression over a cross join gives, if it is an inequality of whole numbers of which each operand is from one side
/// alone; they stand in its place. These are the columns of the left side. Refuses for want of memory alone.
pub fn inequality_keys(
    alloc: Global,
    node: Node,
    origins: &Origins,
    left: &Schema,
    ex: &Arena<AExpr>,
) -> Result<Option<KeyNodes>, AllocError>
    requires { IsExpr ex.now node }
    ensures keys { IfOk result (λ found. (j : Crossed) → AreOrigins j origins.now → j.left ≡ left.now → option_map (pair_at ex.now j) found ≡ inequality_keys_of j (expr_at ex.now node)) }
    ensures place { IfOk result (λ found. IfSome found (λ k. TakePlace ex.now ex.now (both_nodes k) (node ∷ []))) }
{
    match inequality(ex.get(node)) {
        Some((first, op, second)) => {
            let found = paired(alloc, first, op, second, origins, ex)?;
            Ok(whole_only(found, left, ex))
        }
        None => Ok(None),
    }
}
