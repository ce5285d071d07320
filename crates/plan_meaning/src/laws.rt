//! Laws of what plans mean, as the contracts of functions that do nothing.
ghost use Rattle.std.specs.Prelude.{◌≡◌, ℕ, List, None, Ok};
ghost use Rattle.plan_core.specs.declared.arena.Node.{Node};
ghost use Rattle.plan_core.specs.Columns.{Columns, HasDistinctNames};
ghost use Rattle.plan_core.specs.Names.{has};
ghost use Rattle.plan_expr.specs.declared.aexpr.AExpr.{AExpr};
ghost use Rattle.plan_ir.specs.declared.ir.IR.{IR};
ghost use Rattle.plan_ir.specs.declared.copy.PlanCopy.{PlanCopy};
ghost use Rattle.plan_ir.specs.Copies.{IsRenumbered};
ghost use Rattle.plan_ir.specs.Parts.{IsPlan};
ghost use Rattle.plan_ir.specs.Plans.{Plan, op_at};
ghost use Rattle.plan_ir.specs.Reads.{reads_of, scan_reads_of};
ghost use Rattle.plan_meaning.specs.Typing.{schema};
ghost use Rattle.plan_meaning.specs.TreeFaults.{tree_fault};
ghost use Rattle.plan_meaning.specs.Typed.{typed};
ghost use Rattle.plan_meaning.specs.PlanAt.{plan_at};
ghost use Rattle.plan_frame.specs.Frames.{Frame, HasSchema};
ghost use Rattle.plan_meaning.specs.Contents.{Contents, Fits};
ghost use Rattle.plan_meaning.specs.Steps.{May, IsValid};
ghost use Rattle.plan_meaning.specs.Relating.{Refines, Replaced};
ghost use Rattle.plan_meaning.specs.Asked.{AllSites, SiteFair, reads};
ghost use Rattle.plan_meaning.specs.Scans.{Keeps, NameReads, scans};

/// A frame that a valid plan may give has the plan's columns.
pub fn frames_have_their_schema()
    ensures { (c : Contents) (p : Plan) (f : Frame) → IsValid p → Fits c p → May c p f → HasSchema f (schema p) }
{}

/// A valid plan has a run over all contents that fit it.
pub fn valid_plans_have_a_run()
    ensures { (c : Contents) (p : Plan) → IsValid p → Fits c p → (f : Frame) × May c p f }
{}

/// A valid plan refines itself.
pub fn refines_is_reflexive()
    ensures { (p : Plan) → IsValid p → Refines p p }
{}

/// What refines a plan that refines another refines the other.
pub fn refines_is_transitive()
    ensures { (r q p : Plan) → Refines r q → Refines q p → Refines r p }
{}

/// A valid plan is refined by itself with a subplan replaced by one that refines it.
pub fn refines_where_a_subplan_does()
    ensures { (q p u t : Plan) → Refines q p → IsValid t → Replaced q p u t → Refines u t }
{}

/// In a valid plan the names that a scan is asked are among its output names, and it reads what it may read for them.
pub fn scans_are_asked_what_they_hold()
    ensures { (p : Plan) → IsValid p → AllSites SiteFair p }
{}

/// What is listed as read of a node are the names of what it reads; and of a plan on its own, numbered from 0 in walk order, those of what
/// its scans read, from left to right, a list for each.
pub fn scans_read_what_is_listed()
    ensures node { (ex : List AExpr) (node : IR) (a : List ℕ) → has (reads_of node) a ≡ has (reads (op_at ex node)) a }
    ensures plan { (lp : List IR) (ex : List AExpr) (root : Node) (copy : PlanCopy) → IsRenumbered lp ex root copy → NameReads (scan_reads_of copy.lp) (scans (plan_at lp ex root)) }
{}

/// A plan in two arenas is accepted, where its numbers are good, exactly if it is valid, and then with its columns.
pub fn accepted_plans_are_valid()
    ensures valid { (lp : List IR) (ex : List AExpr) (root : Node) (s : Columns) → IsPlan lp ex root → typed lp ex root ≡ Ok s → IsValid (plan_at lp ex root) }
    ensures schema { (lp : List IR) (ex : List AExpr) (root : Node) (s : Columns) → IsPlan lp ex root → typed lp ex root ≡ Ok s → schema (plan_at lp ex root) ≡ s }
    ensures accepted { (lp : List IR) (ex : List AExpr) (root : Node) → IsPlan lp ex root → tree_fault lp ex root ≡ None → IsValid (plan_at lp ex root) → typed lp ex root ≡ Ok (schema (plan_at lp ex root)) }
{}

/// A plan keeps its scans.
pub fn keeps_is_reflexive()
    ensures { (p : Plan) → Keeps p p }
{}

/// What keeps the scans of a plan that keeps those of another keeps those of the other.
pub fn keeps_is_transitive()
    ensures { (r q p : Plan) → Keeps r q → Keeps q p → Keeps r p }
{}

/// A valid plan has no name twice among its columns.
pub fn valid_plans_have_distinct_names()
    ensures { (p : Plan) → IsValid p → HasDistinctNames (schema p) }
{}
