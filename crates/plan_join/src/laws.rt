//! A law of the names of joins, as the contract of a function that does nothing.
ghost use Rattle.std.specs.Prelude.{◌≡◌, List, map, Some};
ghost use Rattle.plan_core.specs.Columns.{Columns, names_of, HasDistinctNames, type_of};
ghost use Rattle.plan_options.specs.declared.join.JoinArgs.{JoinArgs};
ghost use Rattle.plan_options.specs.Join.{suffix_of};
ghost use Rattle.plan_expr.specs.Leaves.{Name};
ghost use Rattle.plan_join.specs.declared.origin.Side.{Side};
ghost use Rattle.plan_join.specs.Naming.{called, join_columns, left_rest, sources};
ghost use Rattle.plan_options.specs.declared.join.MaintainOrderJoin.{MaintainOrderJoin};
ghost use Rattle.plan_join.specs.declared.pairs.RowPair.{RowPair};
ghost use Rattle.plan_join.specs.Orders.{own_order, Meets};
ghost use Rattle.plan_expr.specs.Exprs.{Named};
ghost use Rattle.plan_join.specs.Told.{Told};
ghost use Rattle.plan_frame.specs.Frames.{Frame, HasSchema};
ghost use Rattle.plan_join.specs.Joined.{joined};
ghost use Rattle.plan_join.specs.Matching.{Joins};
ghost use Rattle.plan_join.specs.Sides.{filler};
ghost use Rattle.plan_join.specs.OwnOrders.{own_told};

/// The columns of a join are those that its sides give, each under the name under which that is put out.
pub fn columns_are_sources()
    ensures { (args : JoinArgs) (left_keys right_keys : List Name) (left right : Columns) → names_of (join_columns args left_keys right_keys left right) ≡ map (λ (s : Side × Name). called (suffix_of args) (names_of (left_rest args left_keys left)) s.0 s.1) (sources args left_keys right_keys left right) }
{}

/// Pairs that stand by the rows of both sides stand in each order that is asked: by the right rows first where it speaks of
/// these first, else by the left ones.
pub fn own_order_is_the_asked_one()
    ensures { (order : MaintainOrderJoin) (ps : List RowPair) → Meets (own_order order) ps → Meets order ps }
{}

/// What a join makes of two frames, along any pairs of their rows, has the columns of the join, where each left key is of the
/// type of the right one that fills it.
pub fn joined_frames_have_their_columns()
    ensures { (args : JoinArgs) (left_keys right_keys : List Name) (ps : List RowPair) (f g : Frame) (s t : Columns) → HasSchema f s → HasSchema g t → HasDistinctNames s → HasDistinctNames t → ((a b : Name) → filler args left_keys right_keys a ≡ Some b → type_of s a ≡ type_of t b) → HasSchema (joined args left_keys right_keys ps f g) (join_columns args left_keys right_keys s t) }
{}

/// A join may give a frame of each two.
pub fn each_join_has_a_frame()
    ensures { (told : Told) (left_on right_on : List Named) (f g : Frame) → (frame : Frame) × Joins told left_on right_on f g frame }
{}

/// What a join gives along the pairs in the order by the rows of both sides, it may give.
pub fn joins_may_choose_their_order()
    ensures { (told : Told) (left_on right_on : List Named) (f g frame : Frame) → Joins (own_told told) left_on right_on f g frame → Joins told left_on right_on f g frame }
{}
