//! Laws of narrowed joins, as the contracts of functions that do nothing.
ghost use Rattle.std.specs.Prelude.{◌≡◌, ◌+◌, ◌≤◌, if◌then◌else◌, List, [], ◌∷◌, Bool};
ghost use Rattle.plan_core.specs.Columns.{Columns};
ghost use Rattle.plan_tree.specs.Rose.{Roses, rose, no_roses, more};
ghost use Rattle.plan_expr.specs.Exprs.{Named};
ghost use Rattle.plan_expr.specs.Leaves.{Name};
ghost use Rattle.plan_ir.specs.Plans.{join, Op, Plan};
ghost use Rattle.plan_join.specs.Naming.{has_right};
ghost use Rattle.plan_join.specs.Told.{Told};
ghost use Rattle.plan_meaning.specs.Asked.{set_of, IsFair, sites_of};
ghost use Rattle.plan_meaning.specs.Relating.{Narrows, all, Refines};
ghost use Rattle.plan_meaning.specs.Scans.{nodes, scans, Keeps};
ghost use Rattle.plan_meaning.specs.Steps.{IsValid};
ghost use Rattle.plan_meaning.specs.Typing.{schema};
ghost use Rattle.plan_meaning.specs.Work.{made, kept};
ghost use Rattle.plan_meaning.specs.JoinAsked.{left_names, right_names};
ghost use Rattle.plan_pruned.specs.JoinPruned.{pruned_join};
ghost use Rattle.plan_meaning.specs.Caches.{AreShared, CacheOf, IsCacheOf, caches};
ghost use Rattle.plan_meaning.specs.Marks.{unmarked};
ghost use Rattle.plan_pruned.specs.Pruned.{pruned};
ghost use Rattle.plan_pruned.specs.Reads.{ReadWithin, tops};

/// A valid join over sides that narrow at what it asks of them narrows at what is asked of it.
pub fn pruned_joins_narrow()
    ensures { (asked : List Name) (left_on right_on : List Named) (stored : Columns) (told : Told) (r1 r2 q1 q2 : Plan) → IsValid (rose tt (join left_on right_on stored told) (more q1 (more q2 no_roses))) → IsFair (set_of asked) (schema (rose tt (join left_on right_on stored told) (more q1 (more q2 no_roses)))) → Narrows r1 q1 (set_of (left_names asked left_on right_on told (schema q1) (schema q2))) → Narrows r2 q2 (set_of (right_names asked left_on right_on told (schema q1) (schema q2))) → Narrows (pruned_join asked left_on right_on stored told (schema q1) (schema q2) (more r1 (more r2 no_roses))) (rose tt (join left_on right_on stored told) (more q1 (more q2 no_roses))) (set_of asked) }
{}

/// A pruned join scans what the join over the pruned sides does, has at most one node more, which stands on top where the join puts
/// out columns of its right side, and makes no more columns.
pub fn pruned_joins_do_no_more()
    ensures scans { (asked : List Name) (left_on right_on : List Named) (stored : Columns) (told : Told) (s t : Columns) (inputs : Roses (Unit {0}) Op) → scans (pruned_join asked left_on right_on stored told s t inputs) ≡ scans (rose tt (join left_on right_on stored told) inputs) }
    ensures nodes { (asked : List Name) (left_on right_on : List Named) (stored : Columns) (told : Told) (s t : Columns) (inputs : Roses (Unit {0}) Op) → nodes (pruned_join asked left_on right_on stored told s t inputs) ≤ (if has_right told.args.how then 1 else 0) + nodes (rose tt (join left_on right_on stored told) inputs) }
    ensures made { (asked : List Name) (left_on right_on : List Named) (stored : Columns) (told : Told) (s t : Columns) (inputs : Roses (Unit {0}) Op) → made (pruned_join asked left_on right_on stored told s t inputs) ≤ made (rose tt (join left_on right_on stored told) inputs) }
{}

/// A valid plan that is pruned to names of its own narrows at these names.
pub fn pruned_plans_narrow()
    ensures { (top : Bool) (asked : List Name) (p : Plan) → IsValid p → IsFair (set_of asked) (schema p) → Narrows (pruned top asked p) p (set_of asked) }
{}

/// A valid plan of which every column is asked refines itself when it is pruned.
pub fn pruned_plans_refine()
    ensures { (top : Bool) (p : Plan) → IsValid p → Refines (pruned top [] p) p }
{}

/// The scans of a pruned plan stand one for one for those of the plan, and read only what they may for what is asked of them.
pub fn pruned_plans_read_what_is_asked()
    ensures { (top : Bool) (p : Plan) → IsValid p → ReadWithin (scans (pruned top [] p)) (sites_of p) }
{}

/// A pruned plan keeps the scans of the plan.
pub fn pruned_plans_keep_scans()
    ensures { (top : Bool) (p : Plan) → IsValid p → Keeps (pruned top [] p) p }
{}

/// A pruned plan has at most one node more for each scan, each cache and each join that puts out columns of its right side that is
/// asked names, and for each of several inputs of a union that is.
pub fn pruned_plans_have_few_nodes_more()
    ensures { (top : Bool) (p : Plan) → IsValid p → nodes (pruned top [] p) ≤ nodes p + tops p all }
{}

/// A pruned plan makes at most the columns that its nodes are asked.
pub fn pruned_plans_make_what_is_asked()
    ensures { (top : Bool) (p : Plan) → IsValid p → made (pruned top [] p) ≤ kept p }
{}

/// Plans that are alike, which are equal but for their rechunk marks, are alike when they are pruned.
pub fn alike_plans_are_pruned_alike()
    ensures { (top : Bool) (asked : List Name) (p q : Plan) → unmarked p ≡ unmarked q → unmarked (pruned top asked p) ≡ unmarked (pruned top asked q) }
{}

/// Each cache of a pruned plan is one of the plan, over the same plan; so where caches of one number stood over alike plans, they do.
pub fn pruned_plans_keep_what_is_cached()
    ensures kept { (top : Bool) (asked : List Name) (p : Plan) (c : CacheOf) → IsCacheOf c (caches (pruned top asked p)) → IsCacheOf c (caches p) }
    ensures shared { (top : Bool) (asked : List Name) (p : Plan) → AreShared p → AreShared (pruned top asked p) }
{}
