//! The trait of rules.
ghost use Rattle.std.specs.Prelude.{◌≡◌, ◌≤◌, ◌∷◌, [], length, IfOk, IfErr};
ghost use Rattle.plan_tree.specs.Stands.{Trees, StandsOnce};
ghost use Rattle.plan_expr.specs.declared.aexpr.AExpr.{AExpr};
ghost use Rattle.plan_expr.specs.Operands.{expr_shape};
ghost use Rattle.plan_ir.specs.declared.ir.IR.{IR};
ghost use Rattle.plan_ir.specs.Parts.{IsPlan, StandsPlan};
ghost use Rattle.plan_meaning.specs.PlanAt.{plan_at};
ghost use Rattle.plan_meaning.specs.Steps.{IsValid};
ghost use Rattle.plan_rule.specs.Calls.{Answers, AnswersExpr, ListsExpr};

use plan_core::{Arena, Node, PolarsResult};
use plan_expr::AExpr;
use plan_ir::IR;
use plan_pass_laws::RuleKind;
use std::alloc::Global;

/// A rule that puts lighter plans in the place of others. An answer is an entry that the caller puts at the number that it asked for.
/// A refusal is for want of memory alone; both arenas may then have other entries.
///
/// An answer, put at its number, makes a plan that refines the one before it, is lighter, and keeps its scans and what they read. The
/// weight of a plan is the sum of its nodes, its selections and its expression nodes. An answer of a rule whose kind isn't `Other`
/// lowers the sum of the nodes and selections too. A call changes no entry that its number didn't reach, and an answer reaches only
/// entries that its number reached, or that the call added. Without an answer the plan is as before, but that rechunk marks may be
/// cleared, and no pattern of the rule's kind stands at the node.
pub trait OptimizationRule: Drop {
    ghost use Rattle.std.specs.Prelude.{Bool};
    ghost use Rattle.plan_core.specs.declared.error.PolarsError.TheVariants.{OutOfMemory as out_of_memory};
    ghost use Rattle.plan_pass_laws.specs.declared.kind.RuleKind.{RuleKind};

    // The kind of the rule.
    ghost kind_of: { Self → RuleKind };

    // Whether the rule answers exactly what its kind says.
    ghost is_own: { Self → Bool };

    /// What comes in the place of the node; None where the node stays.
    fn optimize_plan(
        &mut self,
        alloc: Global,
        lp: &mut Arena<IR>,
        ex: &mut Arena<AExpr>,
        node: Node,
    ) -> PolarsResult<Option<IR>>
        requires plan { IsPlan lp.old ex.old node }
        requires valid { IsValid (plan_at lp.old ex.old node) }
        ensures kind { kind_of self.new ≡ kind_of self.old }
        ensures own { is_own self.new ≡ is_own self.old }
        ensures memory { IfErr result (λ e. e ≡ out_of_memory) }
        ensures grows { length lp.old ≤ length lp.new }
        ensures longer { length ex.old ≤ length ex.new }
        ensures answers { IfOk result (λ o. (t : Trees IR) (e : Trees AExpr) → StandsPlan lp.old ex.old node t e → Answers (kind_of self.old) (is_own self.old) lp.old lp.new ex.old ex.new node t e o) };

    /// What comes in the place of an expression that the node at `lp_node` lists, or of one that is part of it; None where it stays.
    /// A rule that has nothing to say of expressions leaves this body.
    fn optimize_expr(
        &mut self,
        alloc: Global,
        ex: &mut Arena<AExpr>,
        expr_node: Node,
        lp: &Arena<IR>,
        lp_node: Node,
    ) -> PolarsResult<Option<AExpr>>
        requires plan { IsPlan lp.now ex.old lp_node }
        requires valid { IsValid (plan_at lp.now ex.old lp_node) }
        requires listed { ListsExpr lp.now ex.old lp_node expr_node }
        ensures kind { kind_of self.new ≡ kind_of self.old }
        ensures own { is_own self.new ≡ is_own self.old }
        ensures memory { IfErr result (λ e. e ≡ out_of_memory) }
        ensures longer { length ex.old ≤ length ex.new }
        ensures answers { IfOk result (λ o. (g : Trees AExpr) → StandsOnce expr_shape ex.old (expr_node ∷ []) g → AnswersExpr (kind_of self.old) (is_own self.old) lp.now ex.old ex.new lp_node expr_node g o) }
    {
        let _ = (alloc, expr_node, lp_node);
        Ok(None)
    }

    /// The kind of the rule, which no call changes.
    fn kind(&self) -> RuleKind
        ensures { result ≡ kind_of self.now };
}
