//! Laws of plans that are written and read, each the contract of a function that does nothing.
ghost use Rattle.std.specs.Prelude.{◌≡◌, ◌<◌, ◌≤◌, ◌^◌, ℕ, List, length, map, Some, true};
ghost use Rattle.std.specs.List.{AllByRecursion};
ghost use Rattle.serde_json.specs.Data.{Data};
ghost use Rattle.serde_json.specs.Read.{read};
ghost use Rattle.plan_core.specs.declared.arena.Node.{Node};
ghost use Rattle.plan_expr.specs.declared.aexpr.AExpr.{AExpr};
ghost use Rattle.plan_ir.specs.declared.copy.PlanCopy.{PlanCopy};
ghost use Rattle.plan_ir.specs.declared.ir.IR.{IR};
ghost use Rattle.plan_ir.specs.Copies.{IsRenumbered};
ghost use Rattle.plan_ir.specs.Moved.{moved_expr, moved_node, new_number};
ghost use Rattle.plan_ir.specs.Parts.{IsPlan};
ghost use Rattle.plan_doc.specs.Document.{doc_of, document};
ghost use Rattle.plan_doc.specs.declared.document.Document.{Document};
ghost use Rattle.plan_text.specs.Written.{plan_data};
ghost use Rattle.plan_round_trip.specs.Back.{AreSaid, plan_of};
ghost use Rattle.plan_round_trip.specs.Canonical.{is_canonical};

/// A plan whose parts JSON values stand for is read of the value that is written for it.
pub fn written_plans_read_back()
    ensures { (lp : List IR) (ex : List AExpr) (root : Node) → AreSaid lp ex root → plan_of (plan_data lp ex root) ≡ Some (lp, ex, root) }
{}

/// JSON values stand for the parts of a plan that is read of a value.
pub fn plans_that_are_read_are_said()
    ensures { (d : Data) (lp : List IR) (ex : List AExpr) (root : Node) → is_canonical d ≡ true → plan_of d ≡ Some (lp, ex, root) → AreSaid lp ex root }
{}

/// JSON values stand for the parts of the plan of a document.
pub fn plans_of_documents_are_said()
    ensures { (bytes : List ℕ) (doc : Document) → doc_of bytes ≡ document doc → AreSaid doc.lp doc.ex doc.root }
{}

/// What is read of a text as a negative number is below 0.
pub fn values_of_texts_are_canonical()
    ensures { (text : List ℕ) (d : Data) → read text ≡ Some d → is_canonical d ≡ true }
{}

/// Where JSON values stand for the parts of a plan, they do so for those of the plan under other numbers, which are below 2 ^ 32. The
/// tables have the other numbers of nodes and of expressions by the ones that were.
pub fn plans_under_other_numbers_are_said()
    ensures { (nodes exprs : List Node) (lp : List IR) (ex : List AExpr) (root : Node) → AllByRecursion (λ (n : Node). n.0 < 2 ^ 32) nodes → AllByRecursion (λ (n : Node). n.0 < 2 ^ 32) exprs → AreSaid lp ex root → AreSaid (map (moved_node nodes exprs) lp) (map (moved_expr exprs) ex) (new_number nodes root) }
{}

/// Where JSON values stand for the parts of a plan, they do so for those of the plan on its own, numbered from 0 in walk order, where it
/// has at most 2 ^ 32 nodes and at most 2 ^ 32 expressions.
pub fn renumbered_plans_are_said()
    ensures { (lp : List IR) (ex : List AExpr) (root : Node) (copy : PlanCopy) → IsPlan lp ex root → AreSaid lp ex root → IsRenumbered lp ex root copy → length copy.lp ≤ 2 ^ 32 → length copy.ex ≤ 2 ^ 32 → AreSaid copy.lp copy.ex copy.root }
{}

/// The plan of a document, on its own and numbered from 0 in walk order, is read of the value that is written for it, where it has at
/// most 2 ^ 32 nodes and at most 2 ^ 32 expressions.
pub fn renumbered_plans_of_documents_read_back()
    ensures { (bytes : List ℕ) (doc : Document) (copy : PlanCopy) → doc_of bytes ≡ document doc → IsPlan doc.lp doc.ex doc.root → IsRenumbered doc.lp doc.ex doc.root copy → length copy.lp ≤ 2 ^ 32 → length copy.ex ≤ 2 ^ 32 → plan_of (plan_data copy.lp copy.ex copy.root) ≡ Some (copy.lp, copy.ex, copy.root) }
{}
