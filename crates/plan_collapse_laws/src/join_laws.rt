//! Laws of filters over joins, as the contracts of functions that do nothing.
ghost use Rattle.std.specs.Prelude.{◌≡◌, ◌<◌, ℕ, Bool, List, [], true, ◌≢◌, ◌≤◌, ◌&&◌, Option, Some, fold, is_some, length};
ghost use Rattle.std.specs.List.{AllByRecursion, filter as only_where, list_all};
ghost use Rattle.plan_options.specs.Join.{suffix_of};
ghost use Rattle.plan_options.specs.declared.join.JoinArgs.{JoinArgs};
ghost use Rattle.plan_options.specs.declared.join.JoinType.{JoinType};
ghost use Rattle.plan_options.specs.declared.join.MaintainOrderJoin.{MaintainOrderJoin};
ghost use Rattle.plan_expr.specs.Exprs.{Expr, Named};
ghost use Rattle.plan_expr.specs.Leaves.{Name};
ghost use Rattle.plan_frame.specs.Frames.{Frame, HasSchema};
ghost use Rattle.plan_join.specs.Orders.{ArePicked};
ghost use Rattle.plan_join.specs.Pairs.{Test, both};
ghost use Rattle.plan_join.specs.declared.pairs.RowPair.{RowPair};
ghost use Rattle.plan_join.specs.Joined.{joined};
ghost use Rattle.plan_meaning.specs.JoinChecks.{is_elementwise};
ghost use Rattle.plan_collapse_laws.specs.FilteredFrames.{PutsOutAll, all_hold, chain, holds};
ghost use Rattle.plan_collapse_laws.specs.FilteredPairs.{GivesPairs, more_by};
ghost use Rattle.plan_core.specs.Columns.{Columns, names_of};
ghost use Rattle.plan_core.specs.Names.{AreDistinct};
ghost use Rattle.plan_expr.specs.Naming.{may_be_named, naming, unnamed};
ghost use Rattle.plan_frame.specs.Exprs.{expr_type};
ghost use Rattle.plan_join.specs.Naming.{join_columns};
ghost use Rattle.plan_meaning.specs.CellRows.{IsEven};
ghost use Rattle.plan_meaning.specs.Minterms.{holds_at, minterms};
ghost use Rattle.plan_collapse_laws.specs.CrossKeys.{Crossed, KeyPair, all_minterms, equal_at, equality_keys, inequality_keys, meets_at};
ghost use Rattle.plan_collapse_laws.specs.Predicates.{IsPredicate, KeyGood, MeetGood};
ghost use Rattle.plan_collapse_laws.specs.TakenKeys.{and_all, and_expr, exprs_of, self_named, some_expr, taken, untaken};
ghost use Rattle.plan_tree.specs.Rose.{more, no_roses};
ghost use Rattle.plan_ir.specs.Plans.{Plan};
ghost use Rattle.plan_meaning.specs.Caches.{AreShared, CacheOf, IsCacheOf, caches};
ghost use Rattle.plan_meaning.specs.Marks.{unmarked};
ghost use Rattle.plan_meaning.specs.Relating.{Refines};
ghost use Rattle.plan_meaning.specs.Scans.{Keeps, nodes, scans};
ghost use Rattle.plan_meaning.specs.Steps.{IsValid};
ghost use Rattle.plan_collapse_laws.specs.Cached.{Became};
ghost use Rattle.plan_collapse_laws.specs.Collapsed.{collapsed};
ghost use Rattle.plan_collapse_laws.specs.Sites.{AreIdle, IsCollapsed, join_sites};
ghost use Rattle.plan_collapse_laws.specs.WorkedJoins.{BecomesCondition, BecomesEquality, BecomesInequality, BeginsAgain, LeavesRest, StaysInOrder, StaysUnderSum, TakesTwo};

/// Of two joins that give pairs of two rows alone, each with a filter, where test and filter of the one hold of just the pairs of which
/// those of the other do: what the filter keeps of a list of pairs that the one may give is what the other filter keeps of a list
/// that the other may give, in whichever order is asked of both.
pub fn filtered_pairs_are_those_of_another_join()
    ensures { (how other : JoinType) (order : MaintainOrderJoin) (own keys : Test) (run rest : RowPair → Bool) (h k : ℕ) → GivesPairs how → GivesPairs other → ((i j : ℕ) → i < h → j < k → more_by own run i j ≡ more_by keys rest i j) → (ps : List RowPair) → ArePicked other order keys h k ps → (qs : List RowPair) × ArePicked how order own h k qs × (only_where run qs ≡ only_where rest ps) }
{}

/// Elementwise filters over a joined frame keep the pairs that make all of them true over themselves alone.
pub fn filtered_joins_keep_pairs()
    ensures { (args : JoinArgs) (left_keys right_keys : List Name) (f g : Frame) (es : List Expr) (ps : List RowPair) → AllByRecursion (λ (e : Expr). is_elementwise e ≡ true) es → chain es (joined args left_keys right_keys ps f g) ≡ joined args left_keys right_keys (only_where (all_hold args left_keys right_keys f g es) ps) f g }
{}

/// Joins of one suffix that put out all columns of both sides and fill none make the same of pairs, whatever their keys.
pub fn joins_of_all_columns_make_the_same()
    ensures { (args other : JoinArgs) → PutsOutAll args → PutsOutAll other → suffix_of args ≡ suffix_of other → (lk rk lj rj : List Name) (ps : List RowPair) (f g : Frame) → joined args lk rk ps f g ≡ joined other lj rj ps f g }
{}

/// An expression that has a type names itself, and may be put out under that name.
pub fn typed_expressions_name_themselves()
    ensures named { (s : Columns) (e : Expr) → is_some (expr_type e s) ≡ true → naming e ≢ unnamed }
    ensures put_out { (s : Columns) (e : Expr) → is_some (expr_type e s) ≡ true → may_be_named (self_named e).name (naming e) ≡ true }
{}

/// The minterms of a predicate are predicates, and And of predicates is one.
pub fn minterms_and_their_and_are_predicates()
    ensures minterms { (s : Columns) (e : Expr) → IsPredicate s e → AllByRecursion (IsPredicate s) (minterms e) }
    ensures joined { (s : Columns) (e : Expr) (es : List Expr) → IsPredicate s e → AllByRecursion (IsPredicate s) es → IsPredicate s (fold and_expr e es) }
{}

/// A row makes And of elementwise expressions true where it makes all true, and a run of filters where it makes all of its minterms true.
pub fn rows_make_and_true_where_they_make_all()
    ensures joined { (f : Frame) (i : ℕ) (es : List Expr) → IsEven f → AllByRecursion (λ (e : Expr). is_elementwise e ≡ true) es → list_all (holds_at f i) (some_expr (and_all es)) ≡ list_all (holds_at f i) es }
    ensures run { (f : Frame) (i : ℕ) (run : List Named) → IsEven f → AllByRecursion (λ (e : Named). is_elementwise e.expr ≡ true) run → list_all (holds_at f i) (exprs_of run) ≡ list_all (holds_at f i) (all_minterms run) }
{}

/// A pair of rows makes an eligible equality true exactly where its keys match in these rows, null with nothing; and an eligible
/// inequality exactly where its keys meet it.
pub fn pairs_make_minterms_true_where_keys_match()
    ensures equal { (args : JoinArgs) (s t : Columns) (f g : Frame) (i j : ℕ) (e : Expr) (k : KeyPair) → PutsOutAll args → AreDistinct (names_of (join_columns args [] [] s t)) → AreDistinct (names_of s) → AreDistinct (names_of t) → HasSchema f s → HasSchema g t → i < f.height → j < g.height → IsPredicate (join_columns args [] [] s t) e → equality_keys (record { args = args; left = s; right = t }) e ≡ Some k → holds args [] [] f g e (both i j) ≡ equal_at k f g i j }
    ensures unequal { (args : JoinArgs) (s t : Columns) (f g : Frame) (i j : ℕ) (e : Expr) (k : KeyPair) → PutsOutAll args → AreDistinct (names_of (join_columns args [] [] s t)) → AreDistinct (names_of s) → AreDistinct (names_of t) → HasSchema f s → HasSchema g t → i < f.height → j < g.height → IsPredicate (join_columns args [] [] s t) e → inequality_keys (record { args = args; left = s; right = t }) e ≡ Some k → holds args [] [] f g e (both i j) ≡ meets_at k f g i j }
{}

/// The keys of an eligible equality that is a predicate over a join of all columns may stand in a join of its sides, and those of an eligible
/// inequality in a join by inequalities.
pub fn keys_may_stand_in_joins()
    ensures equal { (args : JoinArgs) (s t : Columns) (e : Expr) (k : KeyPair) → PutsOutAll args → AreDistinct (names_of (join_columns args [] [] s t)) → IsPredicate (join_columns args [] [] s t) e → equality_keys (record { args = args; left = s; right = t }) e ≡ Some k → KeyGood s t k }
    ensures unequal { (args : JoinArgs) (s t : Columns) (e : Expr) (k : KeyPair) → PutsOutAll args → AreDistinct (names_of (join_columns args [] [] s t)) → IsPredicate (join_columns args [] [] s t) e → inequality_keys (record { args = args; left = s; right = t }) e ≡ Some k → MeetGood s t k }
{}

/// All of some expressions hold exactly where the keys of those that are taken match and the others hold; no more are taken than asked.
pub fn expressions_hold_where_taken_keys_match()
    ensures split { (keys : Expr → Option KeyPair) (test : Expr → Bool) (own : KeyPair → Bool) (n : ℕ) (es : List Expr) → AllByRecursion (λ (e : Expr). (k : KeyPair) → keys e ≡ Some k → test e ≡ own k) es → list_all test es ≡ (list_all own (taken n keys es) && list_all test (untaken n keys es)) }
    ensures few { (keys : Expr → Option KeyPair) (n : ℕ) (es : List Expr) → length (taken n keys es) ≤ n }
{}

/// A valid plan refines itself when its joins are collapsed.
pub fn collapsed_plans_refine()
    ensures { (p : Plan) → IsValid p → Refines (collapsed p) p }
{}

/// What join collapse makes of a valid plan is this plan, collapsed: its joins stand one for one for those of the plan, each of the kind
/// that its run asks for.
pub fn join_collapse_makes_collapsed_plans()
    ensures { (p : Plan) → IsValid p → IsCollapsed (collapsed p) p }
{}

/// A valid plan none of whose cross joins has a run stays as it is.
pub fn plans_without_runs_stay()
    ensures { (p : Plan) → IsValid p → AreIdle (join_sites (more p no_roses) []) → collapsed p ≡ p }
{}

/// Join collapse keeps the scans of a valid plan.
pub fn join_collapse_keeps_scans()
    ensures same { (p : Plan) → IsValid p → scans (collapsed p) ≡ scans p }
    ensures kept { (p : Plan) → IsValid p → Keeps (collapsed p) p }
{}

/// Join collapse adds no node.
pub fn join_collapse_adds_no_node()
    ensures { (p : Plan) → IsValid p → nodes (collapsed p) ≤ nodes p }
{}

/// Each cache of a collapsed plan is one of the plan, its plan collapsed; plans that are equal but for their rechunk marks are so when
/// they are collapsed; so where caches of one number stood over alike plans, they do.
pub fn join_collapse_keeps_what_is_cached()
    ensures kept { (p : Plan) (c : CacheOf) → IsCacheOf c (caches (collapsed p)) → Became collapsed c (caches p) }
    ensures alike { (p q : Plan) → unmarked p ≡ unmarked q → unmarked (collapsed p) ≡ unmarked (collapsed q) }
    ensures shared { (p : Plan) → AreShared p → AreShared (collapsed p) }
{}

/// Join collapse worked out: an equality, an inequality with the right side's operand first, a condition of a cross join whose order is
/// free, the same where the order is asked, a sum, which ends the run, what remains above a join on keys, the first two of three inequalities, and
/// a run below one that ended.
pub fn join_collapse_is_worked_out()
    ensures equality { BecomesEquality }
    ensures inequality { BecomesInequality }
    ensures condition { BecomesCondition }
    ensures ordered { StaysInOrder }
    ensures sum { StaysUnderSum }
    ensures rest { LeavesRest }
    ensures two { TakesTwo }
    ensures again { BeginsAgain }
{}
