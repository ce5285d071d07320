//! Laws of the caches of one number, as the contracts of functions that do nothing.
ghost use Rattle.std.specs.Prelude.{◌≡◌, ℕ, Bool, true, false, List, [], ◌∷◌, Option, ◌++◌, map};
ghost use Rattle.plan_core.specs.Columns.{names_of};
ghost use Rattle.plan_core.specs.Names.{AreDistinct, has};
ghost use Rattle.plan_tree.specs.Rose.{no_roses, more, Roses};
ghost use Rattle.plan_expr.specs.Leaves.{Name};
ghost use Rattle.plan_ir.specs.Plans.{Plan, Op};
ghost use Rattle.plan_meaning.specs.Asked.{sites_of, reads};
ghost use Rattle.plan_meaning.specs.Relating.{Narrows, Refines, names};
ghost use Rattle.plan_meaning.specs.Scans.{Keeps, scans};
ghost use Rattle.plan_meaning.specs.Steps.{IsValid};
ghost use Rattle.plan_meaning.specs.Typing.{schema};
ghost use Rattle.plan_pruned.specs.Pruned.{covered, pruned};
ghost use Rattle.plan_pruned.specs.Reads.{ReadWithin};
ghost use Rattle.plan_order_laws.specs.CacheSites.{AllNarrowed, AllRead, CacheSite, cache_sites, cut_to, names_left, names_or_own, names_read, read_of, renewed, under_projection, wanted, renewed_site};
ghost use Rattle.plan_order_laws.specs.Handled.{handled, narrowed, removed, narrowed_in, removed_in};
ghost use Rattle.plan_order_laws.specs.SideBySide.{marks, single, hold_cache, marks_due, marks_in};
ghost use Rattle.plan_core.specs.declared.options.FileScanOptions.{FileScanOptions};
ghost use Rattle.plan_meaning.specs.Caches.{AreShared, CacheOf, IsCacheOf, caches, caches_in};
ghost use Rattle.plan_meaning.specs.Marks.{unmarked};
ghost use Rattle.plan_pass_laws.specs.CachesLeft.{CacheMade};
ghost use Rattle.plan_order_laws.specs.CacheStates.{Free, IsFlat, Missing, Once, below_narrowed, below_removed, below_single, cache_states, handled_all, ranked, sites_left};
ghost use Rattle.plan_order_laws.specs.WorkedCaches.{filtered_caches, names_a, names_ab, narrowed_caches, projected_caches};

/// Each of some sites reads what is read of them together.
pub fn sites_read_what_is_read_of_all()
    ensures { (sites : List CacheSite) → AllRead (names_read sites) sites }
{}

/// A projection to all names of a valid plan, on top of it or in the place of one that it has, refines it.
pub fn plans_cut_to_all_names_refine()
    ensures above { (a : Name) (l : List Name) (p : Plan) → IsValid p → names_of (schema p) ≡ a ∷ l → Refines (covered (a ∷ l) p) p }
    ensures instead { (a : Name) (l : List Name) (p : Plan) → IsValid p → names_of (schema p) ≡ a ∷ l → Refines (covered (a ∷ l) (under_projection p)) p }
{}

/// A projection to some names of a valid plan, in the place of one that it has on top, narrows it at these.
pub fn plans_cut_to_some_names_narrow()
    ensures { (a : Name) (l : List Name) (p : Plan) → IsValid p → AreDistinct (a ∷ l) → ((b : Name) → has (a ∷ l) b ≡ true → has (names_of (schema p)) b ≡ true) → Narrows (covered (a ∷ l) (under_projection p)) p (names (a ∷ l)) }
{}

/// The input of a site, cut to what is read, is valid; pruned anew it narrows at what is read, and keeps its scans.
pub fn renewed_inputs_narrow()
    ensures valid { (read : Option (List Name)) (p : Plan) → IsValid p → IsValid (cut_to (names_left read p) p) }
    ensures narrows { (read : Option (List Name)) (p : Plan) → IsValid p → Narrows (renewed read p) p (wanted read (schema p)) }
    ensures keeps { (read : Option (List Name)) (p : Plan) → IsValid p → Keeps (renewed read p) p }
{}

/// The input of a site, narrowed, has the names that are read, in its own order, and its scans read what they may for these; where it has
/// none of them, its own names and what they may for all. A projection that is left out asks nothing else.
pub fn renewed_inputs_read_what_is_read()
    ensures names { (read : Option (List Name)) (p : Plan) → IsValid p → names_of (schema (renewed read p)) ≡ names_or_own (read_of read (names_of (schema p))) (names_of (schema p)) }
    ensures reads { (read : Option (List Name)) (p : Plan) → IsValid p → ReadWithin (scans (renewed read p)) (sites_of (covered (names_left read p) p)) }
    ensures cut { (read : Option (List Name)) (p : Plan) → IsValid p → sites_of (cut_to (names_left read p) p) ≡ sites_of (covered (names_left read p) p) }
    ensures sites { (id : ℕ) (read : Option (List Name)) (p : Plan) → IsValid p → AllNarrowed read (cache_sites id [] (more p no_roses)) }
{}

/// A valid plan whose sites of a number are narrowed to names among which are those that each reads refines the plan.
pub fn narrowed_sites_refine()
    ensures { (id : ℕ) (read : Option (List Name)) (p : Plan) → IsValid p → AllRead read (cache_sites id [] (more p no_roses)) → Refines (narrowed id read false p) p }
{}

/// A valid plan without its caches of a number, each place pruned anew, refines the plan.
pub fn removed_caches_refine()
    ensures { (id : ℕ) (within : Bool) (p : Plan) → IsValid p → Refines (removed id within p) p }
{}

/// A valid plan whose caches of a number are handled refines the plan, whether they are narrowed or taken away.
pub fn handled_caches_refine()
    ensures { (differ : Bool) (id : ℕ) (p : Plan) → IsValid p → Refines (handled differ id p) p }
{}

/// It keeps the scans of the plan.
pub fn handled_caches_keep_scans()
    ensures { (differ : Bool) (id : ℕ) (p : Plan) → IsValid p → Keeps (handled differ id p) p }
{}

/// Its joins and unions are those of the plan, one for one, with their marks; so are those of a pruned plan.
pub fn handled_caches_keep_marks()
    ensures pruned { (top : Bool) (asked : List Name) (p : Plan) → IsValid p → marks (pruned top asked p) ≡ marks p }
    ensures handled { (differ : Bool) (id : ℕ) (p : Plan) → IsValid p → marks (handled differ id p) ≡ marks p }
{}

/// A plan whose joins and unions over caches lose their marks refines the plan where it is valid, and keeps its scans.
pub fn plans_run_one_by_one_refine()
    ensures refines { (p : Plan) → IsValid p → Refines (single p) p }
    ensures keeps { (p : Plan) → Keeps (single p) p }
{}

/// Handling the caches of a number, and taking marks of joins and unions away, look at no rechunk mark.
pub fn alike_plans_are_handled_alike()
    ensures renewed { (read : Option (List Name)) (p : Plan) → renewed read (unmarked p) ≡ unmarked (renewed read p) }
    ensures narrowed { (id : ℕ) (read : Option (List Name)) (under : Bool) (p : Plan) → narrowed id read under (unmarked p) ≡ unmarked (narrowed id read under p) }
    ensures removed { (id : ℕ) (within : Bool) (p : Plan) → removed id within (unmarked p) ≡ unmarked (removed id within p) }
    ensures single { (p : Plan) → single (unmarked p) ≡ unmarked (single p) }
{}

/// Each cache that is left is one that was there, over what becomes of the plan below it.
pub fn caches_are_left_over_handled_plans()
    ensures narrowed { (id : ℕ) (read : Option (List Name)) (p : Plan) (c : CacheOf) → IsCacheOf c (caches (narrowed id read true p)) → CacheMade (below_narrowed id read) c (caches p) }
    ensures removed { (id : ℕ) (within : Bool) (p : Plan) (c : CacheOf) → IsCacheOf c (caches (removed id within p)) → CacheMade (below_removed id) c (caches p) }
    ensures single { (p : Plan) (c : CacheOf) → IsCacheOf c (caches (single p)) → CacheMade below_single c (caches p) }
{}

/// Where the caches of a number are handled, caches of one number, this or another, stand over alike plans if they did.
pub fn handled_caches_stay_shared()
    ensures { (differ : Bool) (id : ℕ) (p : Plan) → IsValid p → AreShared p → AreShared (handled differ id p) }
{}

/// Plans without a cache of a number have no site of it, and stay as they are when it is handled.
pub fn plans_without_a_number_stay()
    ensures sites { (id : ℕ) (above : List Op) (ts : Roses (Unit {0}) Op) → Free id (caches_in ts) → cache_sites id above ts ≡ [] }
    ensures narrowed { (id : ℕ) (read : Option (List Name)) (ts : Roses (Unit {0}) Op) → Free id (caches_in ts) → narrowed_in id read ts ≡ ts }
    ensures removed { (id : ℕ) (within : Bool) (ts : Roses (Unit {0}) Op) → Free id (caches_in ts) → removed_in id within ts ≡ ts }
{}

/// In a flat valid plan whose sites of a number are narrowed each of them has its input narrowed, and the sites of other numbers stay.
pub fn narrowed_sites_of_flat_plans_are_told()
    ensures own { (id : ℕ) (read : Option (List Name)) (p : Plan) → IsValid p → IsFlat p → cache_sites id [] (more (narrowed id read false p) no_roses) ≡ map (renewed_site read) (cache_sites id [] (more p no_roses)) }
    ensures others { (id k : ℕ) (read : Option (List Name)) (p : Plan) → (id ≡ k → ⊥) → IsValid p → IsFlat p → cache_sites k [] (more (narrowed id read false p) no_roses) ≡ cache_sites k [] (more p no_roses) }
{}

/// In a valid plan whose caches of a number are taken away none of the number is left, and in a flat one the sites of other numbers stay.
pub fn removed_caches_leave_no_site()
    ensures none { (id : ℕ) (within : Bool) (p : Plan) → IsValid p → Free id (caches (removed id within p)) }
    ensures own { (id : ℕ) (p : Plan) → IsValid p → cache_sites id [] (more (removed id false p) no_roses) ≡ [] }
    ensures others { (id k : ℕ) (p : Plan) → (id ≡ k → ⊥) → IsValid p → IsFlat p → cache_sites k [] (more (removed id false p) no_roses) ≡ cache_sites k [] (more p no_roses) }
{}

/// A flat plan stays flat when the caches of a number, or of several, are handled.
pub fn flat_plans_stay_flat()
    ensures one { (differ : Bool) (id : ℕ) (p : Plan) → IsFlat p → IsFlat (handled differ id p) }
    ensures all { (differ : List CacheSite → Bool) (ids : List ℕ) (p : Plan) → IsFlat p → IsFlat (handled_all differ ids p) }
{}

/// A valid plan whose caches of several numbers are handled one after another refines the plan, keeps its scans, and keeps sharing.
pub fn numbers_are_handled_one_after_another()
    ensures refines { (differ : List CacheSite → Bool) (ids : List ℕ) (p : Plan) → IsValid p → Refines (handled_all differ ids p) p }
    ensures keeps { (differ : List CacheSite → Bool) (ids : List ℕ) (p : Plan) → IsValid p → Keeps (handled_all differ ids p) p }
    ensures shared { (differ : List CacheSite → Bool) (ids : List ℕ) (p : Plan) → IsValid p → AreShared p → AreShared (handled_all differ ids p) }
{}

/// In a flat valid plan the sites of a number that isn't handled stay, and those of one that is handled once are left as they were met.
pub fn sites_of_flat_plans_are_told()
    ensures missing { (differ : List CacheSite → Bool) (k : ℕ) (ids : List ℕ) → Missing k ids → (p : Plan) → IsValid p → IsFlat p → cache_sites k [] (more (handled_all differ ids p) no_roses) ≡ cache_sites k [] (more p no_roses) }
    ensures once { (differ : List CacheSite → Bool) (before after : List ℕ) (id : ℕ) → Missing id before → Missing id after → (p : Plan) → IsValid p → IsFlat p → cache_sites id [] (more (handled_all differ (before ++ id ∷ after) p) no_roses) ≡ sites_left differ (cache_sites id [] (more p no_roses)) }
{}

/// Where joins and unions over caches lose their marks, a plan keeps sharing and stays flat, and its sites stay if it is flat and valid.
pub fn plans_run_one_by_one_keep_caches()
    ensures shared { (p : Plan) → AreShared p → AreShared (single p) }
    ensures flat { (p : Plan) → IsFlat p → IsFlat (single p) }
    ensures sites { (id : ℕ) (p : Plan) → IsValid p → IsFlat p → cache_sites id [] (more (single p) no_roses) ≡ cache_sites id [] (more p no_roses) }
{}

/// A valid plan whose caches are handled, in any order of numbers and whatever tells that sites differ, refines the plan, keeps its scans
/// and sharing, and stays flat.
pub fn cache_states_refine()
    ensures refines { (differ : List CacheSite → Bool) (ids : List ℕ) (p : Plan) → IsValid p → Refines (cache_states differ ids p) p }
    ensures keeps { (differ : List CacheSite → Bool) (ids : List ℕ) (p : Plan) → IsValid p → Keeps (cache_states differ ids p) p }
    ensures shared { (differ : List CacheSite → Bool) (ids : List ℕ) (p : Plan) → IsValid p → AreShared p → AreShared (cache_states differ ids p) }
    ensures flat { (differ : List CacheSite → Bool) (ids : List ℕ) (p : Plan) → IsFlat p → IsFlat (cache_states differ ids p) }
{}

/// Its joins and unions are those of the plan, one for one, with their marks, but where a cache stood below.
pub fn marks_go_where_a_cache_stands_below()
    ensures { (differ : List CacheSite → Bool) (ids : List ℕ) (p : Plan) → IsValid p → marks_in (more (cache_states differ ids p) no_roses) ≡ marks_due (more p no_roses) }
{}

/// Each number of a cache stands once among those that are handled.
pub fn numbers_are_ranked_once()
    ensures { (p : Plan) (c : CacheOf) → IsCacheOf c (caches p) → Once c.id (ranked p) }
{}

/// Of a flat valid plan the sites of each number are left as the plan has them: none where they differ, else each with its input narrowed.
pub fn ranked_sites_are_told()
    ensures ranked { (differ : List CacheSite → Bool) (p : Plan) (c : CacheOf) → IsValid p → IsFlat p → IsCacheOf c (caches p) → cache_sites c.id [] (more (cache_states differ (ranked p) p) no_roses) ≡ sites_left differ (cache_sites c.id [] (more p no_roses)) }
    ensures once { (differ : List CacheSite → Bool) (before after : List ℕ) (id : ℕ) → Missing id before → Missing id after → (p : Plan) → IsValid p → IsFlat p → cache_sites id [] (more (cache_states differ (before ++ id ∷ after) p) no_roses) ≡ sites_left differ (cache_sites id [] (more p no_roses)) }
{}

/// A plan without a cache stays as it is.
pub fn plans_without_caches_stay()
    ensures ranked { (differ : List CacheSite → Bool) (p : Plan) → hold_cache (more p no_roses) ≡ false → cache_states differ (ranked p) p ≡ p }
    ensures none { (differ : List CacheSite → Bool) (p : Plan) → hold_cache (more p no_roses) ≡ false → cache_states differ [] p ≡ p }
{}

/// A join of projections on caches of one number over a scan of three columns, worked out: both inputs are cut to the names of both
/// projections and read these alone, also where the plan was pruned before, and the join loses its mark; pruned alone, both scans read
/// all columns.
pub fn projections_on_caches_are_worked_out()
    ensures shared { (options : FileScanOptions) → cache_states (λ sites. false) (ranked (projected_caches options)) (projected_caches options) ≡ narrowed_caches options }
    ensures reads { (options : FileScanOptions) → map reads (scans (narrowed_caches options)) ≡ names_ab ∷ names_ab ∷ [] }
    ensures pruned { (options : FileScanOptions) → map reads (scans (cache_states (λ sites. false) (ranked (pruned true [] (projected_caches options))) (pruned true [] (projected_caches options)))) ≡ names_ab ∷ names_ab ∷ [] }
    ensures unshared { (options : FileScanOptions) → map reads (scans (pruned true [] (projected_caches options))) ≡ map reads (scans (projected_caches options)) }
{}

/// The same with filters of different conditions on the caches, worked out: no cache is left, and each scan reads what is asked in its place.
pub fn filters_on_caches_are_worked_out()
    ensures caches { (options : FileScanOptions) → caches (cache_states (λ sites. true) (ranked (filtered_caches options)) (filtered_caches options)) ≡ [] }
    ensures reads { (options : FileScanOptions) → map reads (scans (cache_states (λ sites. true) (ranked (filtered_caches options)) (filtered_caches options))) ≡ names_ab ∷ names_a ∷ [] }
    ensures pruned { (options : FileScanOptions) → map reads (scans (cache_states (λ sites. true) (ranked (pruned true [] (filtered_caches options))) (pruned true [] (filtered_caches options)))) ≡ names_ab ∷ names_a ∷ [] }
{}
