//! Laws of what expressions make of frames whose rows stand in another order, as the contracts of functions that do nothing.
ghost use Rattle.std.specs.Prelude.{◌≡◌, ℕ, Bool, true, false, List, [], ◌∷◌, length, map, is_some};
ghost use Rattle.std.specs.Cmp.{IsEquivalence};
ghost use Rattle.std.specs.List.{AllByRecursion, range_with_len};
ghost use Rattle.std.specs.List.Sorted.{IsPermutation};
ghost use Rattle.plan_core.specs.Columns.{Columns};
ghost use Rattle.plan_options.specs.declared.distinct.UniqueKeepStrategy.TheVariants as keeps;
ghost use Rattle.plan_options.specs.declared.group.GroupbyOptions.{GroupbyOptions};
ghost use Rattle.plan_expr.specs.Exprs.{Expr, Named};
ghost use Rattle.plan_frame.specs.ExprLists.{all_scalar};
ghost use Rattle.plan_frame.specs.Exprs.{expr_type};
ghost use Rattle.plan_frame.specs.Frames.{Frame, HasSchema, picked_columns, rows_at};
ghost use Rattle.plan_frame.specs.Grouping.{over_keys};
ghost use Rattle.plan_frame.specs.Made.{grouped, made, made_columns};
ghost use Rattle.plan_frame.specs.Meaning.{are_alike, val};
ghost use Rattle.plan_frame.specs.Orders.{AreKept, key_cells};
ghost use Rattle.plan_ir.specs.Plans.{group_by};
ghost use Rattle.plan_meaning.specs.JoinChecks.{is_elementwise};
ghost use Rattle.plan_meaning.specs.Typing.{AllHold, checks};
ghost use Rattle.plan_order_laws.specs.Rows.{Below, IsLevel, rows_cell};
ghost use Rattle.plan_order_laws.specs.Elementwise.{IsEven, RowWise, all_elementwise, all_summaries, is_summary};

/// An elementwise expression has over some rows of a frame the values that it has in these rows.
pub fn elementwise_expressions_work_row_by_row()
    ensures { (f : Frame) (ps : List ℕ) → Below f.height ps → IsLevel f → (e : Expr) → is_elementwise e ≡ true → RowWise f ps (val e) }
{}

/// So what elementwise expressions make beside the columns of some rows, or of these rows alone, has its rows one for one;
/// keys too; and where they are scalar they read no row.
pub fn elementwise_columns_are_made_row_by_row()
    ensures added { (g : Frame) (ps : List ℕ) → Below g.height ps → IsLevel g → (es : List Named) → all_elementwise es ≡ true → made (length ps) (picked_columns ps g.columns) es (rows_at ps g) ≡ rows_at ps (made g.height g.columns es g) }
    ensures alone { (g : Frame) (ps : List ℕ) → Below g.height ps → IsLevel g → (es : List Named) → all_elementwise es ≡ true → made (length ps) [] es (rows_at ps g) ≡ rows_at ps (made g.height [] es g) }
    ensures scalar { (g : Frame) (ps : List ℕ) → Below g.height ps → IsLevel g → (h : ℕ) (es : List Named) → all_scalar es ≡ true → all_elementwise es ≡ true → made_columns h (rows_at ps g) es ≡ made_columns h g es }
    ensures keys { (g : Frame) (ps : List ℕ) → Below g.height ps → IsLevel g → (keys : List Named) → all_elementwise keys ≡ true → key_cells keys (rows_at ps g) ≡ map (rows_cell ps) (key_cells keys g) }
{}

/// An aggregate that ignores the order of rows, over the rows with the same keys, is in each reordered row what it is in
/// that row of the frame.
pub fn summaries_ignore_the_order()
    ensures { (g : Frame) (s : Columns) → HasSchema g s → (ps : List ℕ) → IsPermutation (range_with_len 0 g.height) ps → (keys : List Named) → all_elementwise keys ≡ true → (e : Named) → is_summary e.expr ≡ true → is_some (expr_type e.expr s) ≡ true → val (over_keys keys e).expr (rows_at ps g) ≡ rows_cell ps (val (over_keys keys e).expr g) }
{}

/// Where each column has one value in the rows of a group, any row of each group gives what its first row does.
pub fn first_rows_stand_for_groups()
    ensures { (same : ℕ → ℕ → Bool) → IsEquivalence same → (h : ℕ) (f : Frame) → AllByRecursion (IsEven same h) f.columns → (rows : List ℕ) → AreKept false keeps.Any same h rows → (firsts : List ℕ) × AreKept false keeps.First same h firsts × (rows_at rows f ≡ rows_at firsts f) }
{}

/// A grouping without order, of elementwise keys and of aggregates that ignore the order, gives over reordered rows only
/// what it may give over the rows.
pub fn groupings_of_reordered_rows_are_groupings()
    ensures { (keys aggs : List Named) (stored : Columns) (options : GroupbyOptions) (s : Columns) → AllHold (checks (group_by keys aggs stored false options) (s ∷ [])) → all_elementwise keys ≡ true → all_summaries aggs ≡ true → (g : Frame) (ps rows : List ℕ) → HasSchema g s → IsPermutation (range_with_len 0 g.height) ps → AreKept false keeps.First (are_alike (key_cells keys (rows_at ps g))) (length ps) rows → (kept : List ℕ) × AreKept false keeps.First (are_alike (key_cells keys g)) g.height kept × (grouped keys aggs rows (rows_at ps g) ≡ grouped keys aggs kept g) }
{}
