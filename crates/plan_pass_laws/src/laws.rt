//! Laws of plans over two arenas, as the contracts of functions that do nothing.
ghost use Rattle.std.specs.Prelude.{◌≡◌, ◌++◌, ◌<◌, ℕ, List, [], ◌∷◌, length};
ghost use Rattle.plan_core.specs.declared.arena.Node.{Node};
ghost use Rattle.plan_tree.specs.Rose.{rose, no_roses, more, join};
ghost use Rattle.plan_tree.specs.Stands.{Apart, Keeps, Reaches, Shape, StandsOnce, Trees};
ghost use Rattle.plan_expr.specs.declared.aexpr.AExpr.{AExpr};
ghost use Rattle.plan_expr.specs.Operands.{expr_shape};
ghost use Rattle.plan_ir.specs.declared.ir.IR.{IR};
ghost use Rattle.plan_ir.specs.Parts.{plan_shape, roots_in, roots_of};
ghost use Rattle.plan_ir.specs.Plans.{bare, op_at, plans_of, Op, Plan};
ghost use Rattle.plan_pass_laws.specs.Becoming.{AllBecome, Becomes, StandApart};
ghost use Rattle.plan_core.specs.Columns.{Columns, HasDistinctNames, names_of};
ghost use Rattle.plan_frame.specs.Frames.{Frame, HasSchema, cut};
ghost use Rattle.plan_meaning.specs.Caches.{AreShared, CacheOf, IsCacheOf, caches};
ghost use Rattle.plan_meaning.specs.Marks.{unmarked};
ghost use Rattle.plan_meaning.specs.Scans.{KeepScans, nodes};
ghost use Rattle.plan_meaning.specs.Steps.{IsValid};
ghost use Rattle.plan_pass_laws.specs.CachesLeft.{CacheMade};

/// Nodes and plans over expressions none of which is among the changed ones are what they were.
pub fn plans_over_unchanged_expressions_stay()
    ensures node { (ex grown : List AExpr) (changed : Trees AExpr) → Keeps ex grown changed → (p : IR) → StandApart ex changed (roots_of p) → op_at grown p ≡ op_at ex p }
    ensures plans { (ex grown : List AExpr) (changed : Trees AExpr) → Keeps ex grown changed → (t : Trees IR) → StandApart ex changed (roots_in t) → bare (plans_of grown t) ≡ bare (plans_of ex t) }
{}

/// Where the last of plans side by side become others, and then the first, all do.
pub fn plans_become_others_side_by_side()
    ensures { (a b c : List IR) (x y z : List AExpr) (f g : Trees IR) (d e : Trees AExpr) → Apart f g → ((k : ℕ) → Reaches f k → k < length a) → Apart d e → ((k : ℕ) → Reaches d k → k < length x) → (ns ms : List Node) → AllBecome a b x y ms g e → AllBecome b c y z ns f d → AllBecome a c x z (ns ++ ms) (join f g) (join d e) }
{}

/// A node stays over inputs that become others, with its own expressions.
pub fn plans_become_others_with_inputs()
    ensures { (a b : List IR) (x y : List AExpr) (n : Node) (p : IR) (kids : Trees IR) (d e : Trees AExpr) → StandsOnce plan_shape a (n ∷ []) (more (rose n p kids) no_roses) → StandsOnce expr_shape x (roots_of p) d → Apart d e → AllBecome a b x y (plan_shape.inputs p) kids e → Becomes a b x y n (more (rose n p kids) no_roses) (join d e) }
{}

/// Where each cache of a plan is one of another, over what a function makes of what that stood over, and the function makes alike plans
/// of alike ones, caches of one number stand over alike plans if they did.
pub fn caches_stay_shared()
    ensures { (now : ℕ → Plan → Plan) (q p : Plan) → ((c : CacheOf) → IsCacheOf c (caches q) → CacheMade now c (caches p)) → ((id : ℕ) (x y : Plan) → unmarked x ≡ unmarked y → unmarked (now id x) ≡ unmarked (now id y)) → AreShared p → AreShared q }
{}

/// Scans that keep others, one list after another, keep these.
pub fn scans_are_kept_side_by_side()
    ensures { (os us ss zs : List Op) → KeepScans os ss → KeepScans us zs → KeepScans (os ++ us) (ss ++ zs) }
{}

/// A frame that is cut to the names of its columns stays as it is.
pub fn frames_cut_to_their_names_stay()
    ensures { (g : Frame) (s : Columns) → HasSchema g s → HasDistinctNames s → cut (names_of s) g ≡ g }
{}

/// What stands below a cache of a valid plan has fewer nodes than the plan; so no cache stands below a plan like the one below it.
pub fn plans_below_caches_are_smaller()
    ensures nodes { (p : Plan) (c : CacheOf) → IsValid p → IsCacheOf c (caches p) → nodes c.below < nodes p }
    ensures alike { (p : Plan) (c : CacheOf) → IsValid p → IsCacheOf c (caches p) → unmarked p ≡ unmarked c.below → ⊥ }
{}
