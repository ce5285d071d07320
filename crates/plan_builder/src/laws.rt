//! Laws of which nodes may follow a plan, as the contracts of functions that do nothing.
ghost use Rattle.std.specs.Prelude.{◌≡◌, ◌++◌, [], ◌∷◌, false, List};
ghost use Rattle.plan_core.specs.declared.arena.Node.{Node};
ghost use Rattle.plan_tree.specs.Stands.{Apart, Trees, StandsOnce};
ghost use Rattle.plan_expr.specs.declared.aexpr.AExpr.{AExpr};
ghost use Rattle.plan_expr.specs.Operands.{expr_shape};
ghost use Rattle.plan_ir.specs.declared.ir.IR.{IR};
ghost use Rattle.plan_ir.specs.Parts.{inputs_of, is_invalid, roots_in, roots_of};
ghost use Rattle.plan_ir.specs.Plans.{op_at};
ghost use Rattle.plan_meaning.specs.Typing.{AllHold, checks};
ghost use Rattle.plan_builder.specs.Builds.{columns_at, IsBuilt, MayFollow};

/// A node over the root of a valid plan alone may follow it, where its expressions stand beside those of the plan, no number
/// twice, and its checks hold over the plan's columns.
pub fn nodes_over_the_root_may_follow()
    ensures { (lp : List IR) (ex : List AExpr) (root : Node) (b : IsBuilt lp ex root) (p : IR) → inputs_of p ≡ root ∷ [] → is_invalid p ≡ false → (e : Trees AExpr) → StandsOnce expr_shape ex (roots_of p ++ roots_in b.plan.nodes) e → AllHold (checks (op_at ex p) (columns_at lp ex root ∷ [])) → MayFollow lp ex p }
{}

/// A node over two valid plans that share no node may follow them, where its expressions stand beside those of the plans, no number
/// twice, and its checks hold over the plans' columns.
pub fn nodes_over_two_plans_may_follow()
    ensures { (lp : List IR) (ex : List AExpr) (left right : Node) (b : IsBuilt lp ex left) (c : IsBuilt lp ex right) (p : IR) → inputs_of p ≡ left ∷ right ∷ [] → is_invalid p ≡ false → Apart b.plan.nodes c.plan.nodes → (e : Trees AExpr) → StandsOnce expr_shape ex (roots_of p ++ (roots_in b.plan.nodes ++ roots_in c.plan.nodes)) e → AllHold (checks (op_at ex p) (columns_at lp ex left ∷ columns_at lp ex right ∷ [])) → MayFollow lp ex p }
{}

/// What is built stays so where entries follow.
pub fn plans_stay_before_entries()
    ensures { (lp later : List IR) (ex : List AExpr) (root : Node) → IsBuilt lp ex root → IsBuilt (lp ++ later) ex root }
{}

/// A node without inputs may follow any entries, where its expressions stand and its checks hold.
pub fn sources_may_follow()
    ensures { (lp : List IR) (ex : List AExpr) (p : IR) → inputs_of p ≡ [] → is_invalid p ≡ false → (e : Trees AExpr) → StandsOnce expr_shape ex (roots_of p) e → AllHold (checks (op_at ex p) []) → MayFollow lp ex p }
{}
