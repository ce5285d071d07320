//! Laws of two additions of which one stands directly on the other, as the contracts of functions that do nothing.
ghost use Rattle.std.specs.Prelude.{◌≡◌, Bool, List, true, ◌+◌, ◌<◌, ◌≤◌, ◌⊎◌, ◌∷◌, Some};
ghost use Rattle.plan_core.specs.Names.{AreDistinct};
ghost use Rattle.plan_tree.specs.Rose.{Roses, more, no_roses, rose};
ghost use Rattle.plan_expr.specs.Exprs.{Named};
ghost use Rattle.plan_expr.specs.Leaves.{Name};
ghost use Rattle.plan_frame.specs.ExprLists.{out_names};
ghost use Rattle.plan_ir.specs.Plans.{Op, Plan};
ghost use Rattle.plan_meaning.specs.Relating.{Refines};
ghost use Rattle.plan_meaning.specs.Steps.{IsValid};
ghost use Rattle.plan_collapse_laws.specs.Additions.{Addition, as_op};
ghost use Rattle.plan_collapse_laws.specs.Meeting.{met};
ghost use Rattle.plan_collapse_laws.specs.Staying.{HoldsStaying, IsOne, Stays, stays};
ghost use Rattle.plan_meaning.specs.Caches.{AreShared, CacheOf, IsCacheOf, caches};
ghost use Rattle.plan_meaning.specs.Marks.{unmarked};
ghost use Rattle.plan_meaning.specs.Scans.{Keeps, nodes, scans};
ghost use Rattle.plan_collapse_laws.specs.Cached.{Became};
ghost use Rattle.plan_collapse_laws.specs.Clustered.{clustered};
ghost use Rattle.plan_collapse_laws.specs.Clusters.{IsClustered, Rests};
ghost use Rattle.plan_collapse_laws.specs.Counts.{placing};
ghost use Rattle.plan_collapse_laws.specs.Runs.{Link, adds, looked_at, met_links, rested, unrest};
ghost use Rattle.plan_collapse_laws.specs.Worked.{MergesEmpty, MergesOptions, MovesFromBehind, RestoresSameOrder, StaysReading, SwapsTogether, TakesPlace};

/// As many rounds as there are expressions find each that has to stay; where all are put out under different names they find no other.
/// Each set that holds what has to stay holds the least one, and what the rounds find is such a set.
pub fn rounds_find_what_stays()
    ensures found { (es : List Named) (lower : List Name) (e : Named) → Stays es lower e → stays es lower e ≡ true }
    ensures no_other { (es : List Named) (lower : List Name) (e : Named) → AreDistinct (out_names es) → IsOne e es → stays es lower e ≡ true → Stays es lower e }
    ensures least { (es : List Named) (lower : List Name) (stay : Named → Bool) (e : Named) → HoldsStaying es lower stay → Stays es lower e → stay e ≡ true }
    ensures holds { (es : List Named) (lower : List Name) → HoldsStaying es lower (stays es lower) }
{}

/// Two additions that stand on one another in a valid plan refine, as what they become, what they were.
pub fn additions_that_meet_refine()
    ensures { (u l : Addition) (op : Op) (ts : Roses (Unit {0}) Op) → IsValid (rose tt (as_op u) (more (rose tt (as_op l) (more (rose tt op ts) no_roses)) no_roses)) → Refines (met u l (λ (x : Addition). rose tt (as_op x) (more (rose tt op ts) no_roses))) (rose tt (as_op u) (more (rose tt (as_op l) (more (rose tt op ts) no_roses)) no_roses)) }
{}

/// A valid plan refines itself when it is clustered.
pub fn clustered_plans_refine()
    ensures { (p : Plan) → IsValid p → Refines (clustered p) p }
{}

/// What clustering makes of a valid plan is clustered.
pub fn clustering_makes_clustered_plans()
    ensures { (p : Plan) → IsValid p → IsClustered (clustered p) }
{}

/// A plan that is clustered stays as it is.
pub fn clustered_plans_stay()
    ensures { (p : Plan) → IsClustered p → clustered p ≡ p }
{}

/// Clustering keeps the scans of a plan.
pub fn clustering_keeps_scans()
    ensures same { (p : Plan) → scans (clustered p) ≡ scans p }
    ensures kept { (p : Plan) → Keeps (clustered p) p }
{}

/// Clustering makes no more nodes than it takes away expressions over additions.
pub fn clustering_makes_few_nodes()
    ensures { (p : Plan) → nodes (clustered p) + placing (clustered p) ≤ nodes p + placing p }
{}

/// Each cache of a clustered plan is one of the plan, its plan clustered; plans that are equal but for their rechunk marks are so when
/// they are clustered; so where caches of one number stood over alike plans, they do.
pub fn clustering_keeps_what_is_cached()
    ensures kept { (p : Plan) (c : CacheOf) → IsCacheOf c (caches (clustered p)) → Became clustered c (caches p) }
    ensures alike { (p q : Plan) → unmarked p ≡ unmarked q → unmarked (clustered p) ≡ unmarked (clustered q) }
    ensures shared { (p : Plan) → AreShared p → AreShared (clustered p) }
{}

/// A look at a run changes nothing, or leaves less to be changed; a run that a look leaves as it is is at rest; what is at rest stays when
/// it is looked at; and looking at a run first changes nothing of what it comes to.
pub fn runs_come_to_rest()
    ensures moves { (ks : List Link) → (looked_at ks ≡ ks) ⊎ (unrest (looked_at ks) < unrest ks) }
    ensures still { (ks : List Link) → looked_at ks ≡ ks → rested ks ≡ ks }
    ensures ends { (ks : List Link) → looked_at (rested ks) ≡ rested ks }
    ensures first { (ks : List Link) → rested (looked_at ks) ≡ rested ks }
{}

/// Two additions that rest on one another stay as they are where they meet.
pub fn additions_that_rest_stay()
    ensures { (u l : Addition) (below : Addition → List Link) → Rests (Some u) (Some l) → met_links u l below ≡ adds u ∷ below l }
{}

/// Clustering worked out: an expression that moves from behind, one that reads what is below, two that swap columns, one that takes
/// a place, one that moves from behind and leaves the order, options that are merged, and an addition of nothing.
pub fn clustering_is_worked_out()
    ensures behind { MovesFromBehind }
    ensures reading { StaysReading }
    ensures swapped { SwapsTogether }
    ensures placed { TakesPlace }
    ensures in_order { RestoresSameOrder }
    ensures options { MergesOptions }
    ensures nothing { MergesEmpty }
{}
