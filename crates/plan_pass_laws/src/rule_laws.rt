//! Laws of what rules answer, as the contracts of functions that do nothing.
ghost use Rattle.std.specs.Prelude.{◌≡◌, ◌<◌, ℕ, Bool, true, false, List, [], ◌∷◌, Option, Some, is_some, option_map, ◌++◌, ◌+◌};
ghost use Rattle.std.specs.List.{AllByRecursion};
ghost use Rattle.plan_core.specs.declared.data_type.DataType.{DataType};
ghost use Rattle.plan_core.specs.Columns.{Columns, names_of};
ghost use Rattle.plan_tree.specs.Rose.{Roses, rose, no_roses, more};
ghost use Rattle.plan_expr.specs.Exprs.{Expr, Named};
ghost use Rattle.plan_expr.specs.Leaves.{Name};
ghost use Rattle.plan_frame.specs.ExprLists.{out_names};
ghost use Rattle.plan_frame.specs.Frames.{Frame, HasSchema, cut};
ghost use Rattle.plan_frame.specs.Made.{selected};
ghost use Rattle.plan_frame.specs.Rows.{filtered};
ghost use Rattle.plan_ir.specs.Plans.{Op, Plan};
ghost use Rattle.plan_meaning.specs.Caches.{AreShared, CacheOf, IsCacheOf, caches};
ghost use Rattle.plan_meaning.specs.Checks.{each_new, is_known};
ghost use Rattle.plan_meaning.specs.Contents.{Contents, FitsAll};
ghost use Rattle.plan_meaning.specs.Marks.{unmarked};
ghost use Rattle.plan_meaning.specs.Relating.{Refines};
ghost use Rattle.plan_meaning.specs.Scans.{Keeps, scans};
ghost use Rattle.plan_meaning.specs.Steps.{IsValid, MayAll};
ghost use Rattle.plan_meaning.specs.Typing.{AllHold, AllValid};
ghost use Rattle.plan_pass_laws.specs.declared.kind.RuleKind.{RuleKind};
ghost use Rattle.plan_pass_laws.specs.declared.kind.RuleKind.TheVariants.{Collapse, Flatten, Rechunk, TrueFilter};
ghost use Rattle.plan_pass_laws.specs.AnswerCases.{Answered, IsOwn, TakenUp};
ghost use Rattle.plan_pass_laws.specs.Answers.{all_taken_up, answer_of, delayed, is_true_literal};
ghost use Rattle.plan_pass_laws.specs.Clearing.{AreCleared, Cleared};
ghost use Rattle.plan_pass_laws.specs.Patterns.{are_quiet, shows, are_counted, is_counted};
ghost use Rattle.plan_pass_laws.specs.Weights.{bulk, weight};
ghost use Rattle.plan_pass_laws.specs.CachesLeft.{CacheLeft};
ghost use Rattle.plan_pass_laws.specs.Settling.{Done, QuietAt, Reworked, Reworks, Settles, Walked, WalkedAlone, both, idle, one_done};
ghost use Rattle.plan_pass_laws.specs.Walks.{Walks};

/// What a rule answers is one of six cases.
pub fn answers_are_of_six_cases()
    ensures { (kind : RuleKind) (p q : Plan) → answer_of kind p ≡ Some q → Answered p q }
{}

/// An answer in the place of a valid plan refines it.
pub fn answers_refine()
    ensures { (p q : Plan) → Answered p q → IsValid p → Refines q p }
{}

/// An answer is lighter than the plan, and has fewer nodes and selections.
pub fn answers_are_lighter()
    ensures weight { (p q : Plan) → Answered p q → weight q < weight p }
    ensures bulk { (p q : Plan) → Answered p q → bulk q < bulk p }
{}

/// An answer has the very scans of the plan.
pub fn answers_have_the_same_scans()
    ensures scans { (p q : Plan) → Answered p q → scans q ≡ scans p }
    ensures keeps { (p q : Plan) → Answered p q → Keeps q p }
{}

/// Each cache of an answer is one of the plan, over the same plan; so where caches of one number stood over alike plans, they do.
pub fn answers_keep_what_is_cached()
    ensures kept { (p q : Plan) → Answered p q → (c : CacheOf) → IsCacheOf c (caches q) → IsCacheOf c (caches p) }
    ensures shared { (p q : Plan) → Answered p q → AreShared p → AreShared q }
{}

/// A rule answers exactly where the pattern of its kind stands; the rule against true filters in a valid plan.
pub fn rules_answer_where_their_patterns_stand()
    ensures collapse { (eager : Bool) (p : Plan) → is_some (answer_of (Collapse eager) p) ≡ shows (Collapse eager) p }
    ensures flatten { (p : Plan) → is_some (answer_of Flatten p) ≡ shows Flatten p }
    ensures true_filter { (p : Plan) → IsValid p → is_some (answer_of TrueFilter p) ≡ shows TrueFilter p }
{}

/// Rules look at no rechunk mark: plans without their marks get the same answers without theirs.
pub fn alike_plans_get_alike_answers()
    ensures { (kind : RuleKind) (p : Plan) → answer_of kind (unmarked p) ≡ option_map unmarked (answer_of kind p) }
{}

/// A valid plan with rechunk marks cleared refines the plan.
pub fn cleared_plans_refine()
    ensures { (q p : Plan) → IsValid p → Cleared q p → Refines q p }
{}

/// A plan with rechunk marks cleared has the scans and the weight of the plan, and is equal to it but for the marks.
pub fn cleared_plans_differ_in_marks_alone()
    ensures keeps { (q p : Plan) → Cleared q p → Keeps q p }
    ensures weight { (q p : Plan) → Cleared q p → weight q ≡ weight p }
    ensures bulk { (q p : Plan) → Cleared q p → bulk q ≡ bulk p }
    ensures alike { (q p : Plan) → Cleared q p → unmarked q ≡ unmarked p }
{}

/// Marks may be cleared nowhere, and one after another.
pub fn marks_are_cleared_one_after_another()
    ensures none { (p : Plan) → Cleared p p }
    ensures more { (r q p : Plan) → Cleared r q → Cleared q p → Cleared r p }
{}

/// A cleared mark makes no pattern of any kind.
pub fn cleared_marks_make_no_pattern()
    ensures root { (kind : RuleKind) (q p : Plan) → Cleared q p → shows kind p ≡ false → shows kind q ≡ false }
    ensures below { (kinds : List RuleKind) (qs ps : Roses (Unit {0}) Op) → AreCleared qs ps → are_quiet kinds ps ≡ true → are_quiet kinds qs ≡ true }
{}

/// What the rule that delays leaves is the plan with a mark cleared, and has no pattern of its kind at the root.
pub fn delayed_plans_have_no_mark_left()
    ensures cleared { (p : Plan) → Cleared (delayed p) p }
    ensures quiet { (p : Plan) → shows Rechunk (delayed p) ≡ false }
{}

/// A selection of columns under their own names gives what a projection to these names does.
pub fn selections_of_own_columns_are_cuts()
    ensures { (g : Frame) (s : Columns) (e : Named) (es : List Named) → AllByRecursion (λ x. IsOwn x s) (e ∷ es) → AllHold (each_new 1 [] (out_names (e ∷ es))) → selected (e ∷ es) g ≡ cut (out_names (e ∷ es)) g }
{}

/// A frame that is cut to some names, and then to some of these, is the frame cut to the latter.
pub fn frames_are_cut_once()
    ensures { (cs ds : Columns) (g : Frame) → AllByRecursion (λ (c : Name × DataType). is_known ds c.0 ≡ true) cs → cut (names_of cs) (cut (names_of ds) g) ≡ cut (names_of cs) g }
{}

/// A filter by the literal true keeps each row.
pub fn filters_by_true_keep_each_row()
    ensures { (e : Expr) (g : Frame) (s : Columns) → HasSchema g s → is_true_literal e ≡ true → filtered e g ≡ g }
{}

/// Where inputs of a union take up the inputs of unions among them, what they may give is, in turn, what the given inputs may.
pub fn inputs_taken_up_give_the_same_rows()
    ensures { (c : Contents) (ts : Roses (Unit {0}) Op) → AllValid ts → FitsAll c ts → (fs : List Frame) → MayAll c (all_taken_up ts) fs → TakenUp c ts fs }
{}

/// A plan is walked to one plan alone.
pub fn walks_are_functions()
    ensures { (kinds : List RuleKind) (p q r : Plan) → Walks kinds p q → Walks kinds p r → q ≡ r }
{}

/// Each cache that a walk leaves is one that was there, over what a walk leaves of the plan that was below it.
pub fn walks_leave_caches_over_walked_plans()
    ensures { (kinds : List RuleKind) (p q : Plan) → Walks kinds p q → (c : CacheOf) → IsCacheOf c (caches q) → CacheLeft (λ id. Walks kinds) c (caches p) }
{}

/// A walk, told without rechunk marks, leaves caches of one number over alike plans where they stood so.
pub fn walks_keep_sharing()
    ensures { (kinds : List RuleKind) (p q : Plan) → Walks kinds (unmarked p) (unmarked q) → AreShared p → AreShared q }
{}

/// Where nothing is done, or marks are cleared, rules leave valid plans as they should; and they do so one after another.
pub fn work_is_done_step_after_step()
    ensures none { (kinds : List RuleKind) (ps : Roses (Unit {0}) Op) → AllValid ps → Reworks kinds ps ps idle }
    ensures cleared { (kinds : List RuleKind) (qs ps : Roses (Unit {0}) Op) → AllValid ps → AreCleared qs ps → Reworks kinds qs ps idle }
    ensures more { (kinds : List RuleKind) (rs qs ps : Roses (Unit {0}) Op) (d e : Done) → Reworks kinds qs ps d → Reworks kinds rs qs e → Reworks kinds rs ps (both d e) }
    ensures weaker { (kinds others : List RuleKind) (qs ps : Roses (Unit {0}) Op) (d : Done) → (are_counted others ≡ true → are_counted kinds ≡ true) → Reworks kinds qs ps d → Reworks others qs ps d }
{}

/// What is done to one plan and to those behind it is done to all, and what is done below a node of a valid plan is done to the plan.
pub fn work_is_done_beside_and_below()
    ensures beside { (kinds : List RuleKind) (q p : Plan) (qs ps : Roses (Unit {0}) Op) (d e : Done) → Reworks kinds qs ps d → Reworked kinds q p e → Reworks kinds (more q qs) (more p ps) (both d e) }
    ensures below { (kinds : List RuleKind) (op : Op) (us ts : Roses (Unit {0}) Op) (d : Done) → IsValid (rose tt op ts) → Reworks kinds us ts d → Reworked kinds (rose tt op us) (rose tt op ts) d }
{}

/// A better plan in the place of another is work of a rule.
pub fn answers_are_work()
    ensures { (kind : RuleKind) (q p : Plan) → Refines q p → Keeps q p → weight q < weight p → (is_counted kind ≡ true → bulk q < bulk p) → Reworked (kind ∷ []) q p (one_done kind) }
{}

/// Rules are called at a root one after another, and then at the expressions of its node; where nothing was done, no pattern stands there.
pub fn rules_are_called_one_after_another()
    ensures next { (kinds : List RuleKind) (kind : RuleKind) (r q p : Plan) (d e : Done) → Reworked kinds q p d → QuietAt kinds q d → Reworked (kind ∷ []) r q e → QuietAt (kind ∷ []) r e → Reworked (kinds ++ kind ∷ []) r p (both d e) × QuietAt (kinds ++ kind ∷ []) r (both d e) }
    ensures exprs { (kinds : List RuleKind) (r q p : Plan) (d e : Done) → Reworked kinds q p d → QuietAt kinds q d → Reworked kinds r q e → Reworked kinds r p (both d e) × QuietAt kinds r (both d e) }
{}

/// A plan is walked where its root is worked on, and then its inputs are walked, the last of them first.
pub fn walks_go_from_the_root_to_inputs()
    ensures root { (kinds : List RuleKind) (op : Op) (p : Plan) (us ts : Roses (Unit {0}) Op) (top below : Done) → IsValid (rose tt op ts) → Reworked kinds (rose tt op ts) p top → QuietAt kinds (rose tt op ts) top → Walked kinds us ts below → WalkedAlone kinds (rose tt op us) p (both top below) }
    ensures inputs { (kinds : List RuleKind) (q p : Plan) (qs ps : Roses (Unit {0}) Op) (d e : Done) → Walked kinds qs ps d → WalkedAlone kinds q p e → Walked kinds (more q qs) (more p ps) (both d e) }
    ensures none { (kinds : List RuleKind) → Walked kinds no_roses no_roses idle }
{}

/// Where a walk changes nothing after what was done, the plan is settled.
pub fn loops_end_settled()
    ensures { (kinds : List RuleKind) (r q p : Plan) (d e : Done) → Reworked kinds q p d → WalkedAlone kinds r q e → e.changed ≡ false → Settles kinds p r (d.replaced + e.replaced) }
{}
