//! Laws of trees in an arena, as the contracts of functions that do nothing.
ghost use Rattle.std.specs.Prelude.{◌≡◌, ◌++◌, ◌<◌, ℕ, false, List, [], ◌∷◌, Some, length, slice_get};
ghost use Rattle.std.specs.List.Sorted.{IsPermutation};
ghost use Rattle.plan_core.specs.declared.arena.Node.{Node};
ghost use Rattle.plan_tree.specs.Rose.{rose, no_roses, more, join};
ghost use Rattle.plan_tree.specs.Stands.{Apart, Reaches, Rewrites, Shape, StandsOnce, Trees};
ghost use Rattle.plan_tree.specs.Forests.{OpenedAt, PickedOf, RewrittenAt, StandsToo, ToppedBy};

/// Where trees stand once over numbers, trees stand once over these in any order, and reach no more.
pub fn trees_stand_in_any_order<P>()
    ensures { (S : Shape P) (lp : List P) (ns ms : List Node) → IsPermutation ns ms → StandsToo S lp ns ms }
{}

/// Of trees over numbers, those over some of these in any order and those over the others stand once and apart, and reach no more.
pub fn trees_stand_over_picked_numbers<P>()
    ensures { (S : Shape P) (lp : List P) (ns ms rest : List Node) (t : Trees P) → IsPermutation ns (ms ++ rest) → StandsOnce S lp ns t → PickedOf S lp ms rest t }
{}

/// Where trees stand once over numbers, trees stand once over the inputs of the first in its place, and don't reach it.
pub fn trees_stand_over_inputs<P>()
    ensures { (S : Shape P) (lp : List P) (n : Node) (p : P) (ns : List Node) (t : Trees P) → slice_get lp n.0 ≡ Some p → StandsOnce S lp (n ∷ ns) t → OpenedAt S lp n p ns t }
{}

/// Trees stand on where an entry is added behind the others.
pub fn trees_stand_in_a_longer_arena<P>()
    ensures { (S : Shape P) (lp : List P) (q : P) (ns : List Node) (t : Trees P) → StandsOnce S lp ns t → StandsOnce S (lp ++ q ∷ []) ns t }
{}

/// Trees stand over an entry that is added above the first numbers, and over the others, and reach no more but for it.
pub fn trees_stand_over_a_new_entry<P>()
    ensures { (S : Shape P) (lp : List P) (q : P) (n : Node) (ns ms : List Node) (t : Trees P) → n.0 ≡ length lp → S.inputs q ≡ ns → S.bad q ≡ false → StandsOnce S lp (ns ++ ms) t → ToppedBy S lp q n ms t }
{}

/// Where the tree at a number that trees reach is rewritten, these are, and still reach it.
pub fn trees_are_rewritten_with_a_part<P>()
    ensures { (S : Shape P) (old new : List P) (ns : List Node) (f : Trees P) (m : Node) (g h : Trees P) → StandsOnce S old ns f → Reaches f m.0 → StandsOnce S old (m ∷ []) g → Rewrites S old new (m ∷ []) g h → RewrittenAt S old new ns f m }
{}

/// A tree is rewritten where the trees over its inputs are, also with trees beside it.
pub fn trees_are_rewritten_with_inputs<P>()
    ensures { (S : Shape P) (old new : List P) (n m : Node) (ns : List Node) (p : P) (kids rest us : Trees P) → StandsOnce S old (n ∷ ns) (more (rose m p kids) rest) → Rewrites S old new (S.inputs p) kids us → Rewrites S old new (n ∷ ns) (more (rose m p kids) rest) (more (rose m p us) rest) }
{}

/// Trees are rewritten where those behind the first are.
pub fn trees_are_rewritten_with_those_behind<P>()
    ensures { (S : Shape P) (old new : List P) (n m : Node) (ns : List Node) (p : P) (kids rest us : Trees P) → StandsOnce S old (n ∷ ns) (more (rose m p kids) rest) → Rewrites S old new ns rest us → Rewrites S old new (n ∷ ns) (more (rose m p kids) rest) (more (rose m p kids) us) }
{}

/// Where the trees behind others are rewritten, these still stand; where they are rewritten then, all are, also over other numbers.
pub fn trees_are_rewritten_side_by_side<P>()
    ensures first { (S : Shape P) (a b : List P) (f g : Trees P) → Apart f g → ((k : ℕ) → Reaches f k → k < length a) → (ns ms : List Node) (u : Trees P) → StandsOnce S a ns f → Rewrites S a b ms g u → StandsOnce S b ns f }
    ensures both { (S : Shape P) (a b c : List P) (f g : Trees P) → Apart f g → ((k : ℕ) → Reaches f k → k < length a) → (ns ms : List Node) (v u : Trees P) → Rewrites S a b ms g u → Rewrites S b c ns f v → Rewrites S a c (ns ++ ms) (join f g) (join v u) }
{}
