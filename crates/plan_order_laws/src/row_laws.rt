//! Laws of frames whose rows stand in another order, as the contracts of functions that do nothing.
ghost use Rattle.std.specs.Prelude.{◌≡◌, ◌+◌, ◌<◌, ℕ, Bool, true, false, List, length, map, is_some};
ghost use Rattle.std.specs.Cmp.{IsEquivalence};
ghost use Rattle.std.specs.List.{range_with_len};
ghost use Rattle.std.specs.List.Sorted.{IsPermutation};
ghost use Rattle.std.specs.declared.cmp.Ordering.{Ordering};
ghost use Rattle.plan_core.specs.Columns.{Columns};
ghost use Rattle.plan_core.specs.declared.data_type.DataType.{DataType};
ghost use Rattle.plan_options.specs.declared.distinct.UniqueKeepStrategy.{UniqueKeepStrategy};
ghost use Rattle.plan_expr.specs.Types.{aggregate_type};
ghost use Rattle.plan_expr.specs.declared.agg.Aggregate.{Aggregate};
ghost use Rattle.plan_frame.specs.Aggregates.{aggregated};
ghost use Rattle.plan_frame.specs.Frames.{Frame, HasSchema, in_turn, picked, rows_at};
ghost use Rattle.plan_frame.specs.Meaning.{Cell, are_alike};
ghost use Rattle.plan_frame.specs.Orders.{AreKept, AreSorted, rows_cmp};
ghost use Rattle.plan_frame.specs.Values.{AllOf, Value};
ghost use Rattle.plan_order_laws.specs.Orderless.{distinct_demands, ignores_order};
ghost use Rattle.plan_order_laws.specs.Reordering.{AllHave, InOrder, LastLoose, Reordering};
ghost use Rattle.plan_order_laws.specs.Rows.{Below, IsLevel, PlaceOf, Placed, nth, rows_cell};
ghost use Rattle.plan_order_laws.specs.Shuffles.{Shuffled};

/// Rows of rows are rows, in an order where these stand in one; all rows of a frame are the frame, and its columns are
/// as long as it is high.
pub fn rows_of_rows_are_rows()
    ensures twice { (ps rows : List ℕ) (f : Frame) → Below (length ps) rows → rows_at rows (rows_at ps f) ≡ rows_at (map (nth ps) rows) f }
    ensures order { (h : ℕ) (ps rows : List ℕ) → IsPermutation (range_with_len 0 h) ps → IsPermutation (range_with_len 0 (length ps)) rows → IsPermutation (range_with_len 0 h) (map (nth ps) rows) }
    ensures whole { (g : Frame) (s : Columns) → HasSchema g s → rows_at (range_with_len 0 g.height) g ≡ g }
    ensures level { (g : Frame) (s : Columns) → HasSchema g s → IsLevel g }
{}

/// What stands in another order has its places in one, and so the rows of a frame in another order are its rows
/// reordered.
pub fn rows_in_another_order_have_places()
    ensures itself { (ps : List ℕ) → map (nth ps) (range_with_len 0 (length ps)) ≡ ps }
    ensures placed { (xs ys : List ℕ) → IsPermutation xs ys → Placed xs ys }
    ensures place { (h : ℕ) (ps : List ℕ) → IsPermutation (range_with_len 0 h) ps → (k : ℕ) → k < h → PlaceOf ps k }
    ensures reordered { (g : Frame) (xs ys : List ℕ) → IsPermutation xs ys → Reordering (rows_at ys g) (rows_at xs g) }
{}

/// What is given row by row is over picked rows what it is in these.
pub fn rows_are_given_one_by_one()
    ensures { (at by : ℕ → Value) (h : ℕ) (ps : List ℕ) → Below h ps → ((i : ℕ) → i < length ps → by i ≡ at (nth ps i)) → map by (range_with_len 0 (length ps)) ≡ picked ps (map at (range_with_len 0 h)) }
{}

/// Two of the picked rows compare as they do in the frame, and are the same where they are there; so picked rows that are
/// sorted are sorted in the frame, where no order of ties is asked.
pub fn picked_rows_stand_as_they_did()
    ensures compared { (ps : List ℕ) (cs : List Cell) (ds ns : List Bool) (i j : ℕ) → i < length ps → j < length ps → rows_cmp (map (rows_cell ps) cs) ds ns i j ≡ rows_cmp cs ds ns (nth ps i) (nth ps j) }
    ensures alike { (ps : List ℕ) (cs : List Cell) (i j : ℕ) → i < length ps → j < length ps → are_alike (map (rows_cell ps) cs) i j ≡ are_alike cs (nth ps i) (nth ps j) }
    ensures sorted { (h : ℕ) (ps rows : List ℕ) (by cmp : ℕ → ℕ → Ordering) → IsPermutation (range_with_len 0 h) ps → ((i j : ℕ) → i < length ps → j < length ps → by i j ≡ cmp (nth ps i) (nth ps j)) → AreSorted false by (length ps) rows → AreSorted false cmp h (map (nth ps) rows) }
{}

/// Where any of the rows that are the same may be kept, or only those that are alone, rows kept of reordered rows are kept
/// of the rows; and rows that are kept in any order may be kept in their own.
pub fn kept_rows_are_kept_of_reordered_rows()
    ensures kept { (same by : ℕ → ℕ → Bool) → IsEquivalence same → (h : ℕ) (ps : List ℕ) → IsPermutation (range_with_len 0 h) ps → ((i j : ℕ) → i < length ps → j < length ps → by i j ≡ same (nth ps i) (nth ps j)) → (keep : UniqueKeepStrategy) (rows : List ℕ) → distinct_demands keep false ≡ false → AreKept false keep by (length ps) rows → AreKept false keep same h (map (nth ps) rows) }
    ensures in_order { (stable : Bool) (keep : UniqueKeepStrategy) (same : ℕ → ℕ → Bool) → IsEquivalence same → (h : ℕ) (rows : List ℕ) → AreKept false keep same h rows → InOrder stable keep same h rows }
{}

/// Frames with the same columns in turn have their rows reordered where the last of them has.
pub fn last_frames_in_turn_may_be_reordered()
    ensures { (s : Columns) (fs gs : List Frame) → AllHave s gs → LastLoose fs gs → Reordering (in_turn fs) (in_turn gs) }
{}

/// Values and rows in another order are exchanges of neighbours; an aggregate that ignores the order makes the same of values of a
/// type that it takes.
pub fn aggregates_may_ignore_the_order()
    ensures values { (vs ws : List Value) → IsPermutation vs ws → Shuffled vs ws }
    ensures rows { (xs ys : List ℕ) → IsPermutation xs ys → Shuffled xs ys }
    ensures same { (op : Aggregate) (t : DataType) → ignores_order op ≡ true → is_some (aggregate_type op t) ≡ true → (vs ws : List Value) → Shuffled vs ws → AllOf t vs → aggregated op vs ≡ aggregated op ws }
{}
