//! Laws of elementwise expressions and of minterms, as the contracts of functions that do nothing.
ghost use Rattle.std.specs.Prelude.{◌≡◌, ℕ, List, true};
ghost use Rattle.std.specs.List.{flat_map, list_all};
ghost use Rattle.plan_core.specs.declared.arena.Node.{Node};
ghost use Rattle.plan_tree.specs.Stands.{Reaches, Stands, StandsOnce, Trees};
ghost use Rattle.plan_expr.specs.declared.aexpr.AExpr.{AExpr};
ghost use Rattle.plan_expr.specs.Exprs.{Expr, bare_exprs};
ghost use Rattle.plan_expr.specs.Operands.{expr_shape};
ghost use Rattle.plan_frame.specs.Frames.{Frame, rows_at};
ghost use Rattle.plan_frame.specs.Meaning.{val};
ghost use Rattle.plan_meaning.specs.JoinChecks.{is_elementwise};
ghost use Rattle.plan_meaning.specs.CellRows.{AreBelow, IsEven, IsWide, cell_rows};
ghost use Rattle.plan_meaning.specs.MintermTrees.{listed, minterm_trees, roots};
ghost use Rattle.plan_meaning.specs.Minterms.{holds_at, minterms};
ghost use Rattle.plan_meaning.specs.Worked.{NestedAnd};

/// An elementwise expression is one value or one for each row, and over some rows of a frame it is what it is in these rows over the
/// frame.
pub fn elementwise_expressions_work_row_by_row()
    ensures wide { (f : Frame) (e : Expr) → IsEven f → is_elementwise e ≡ true → IsWide f.height (val e f) }
    ensures rows { (f : Frame) (rows : List ℕ) (e : Expr) → IsEven f → AreBelow f.height rows → is_elementwise e ≡ true → val e (rows_at rows f) ≡ cell_rows rows (val e f) }
{}

/// A row makes an elementwise expression true exactly where it makes each of its minterms true, nulls included.
pub fn rows_make_minterms_true_together()
    ensures { (f : Frame) (i : ℕ) (e : Expr) → IsEven f → is_elementwise e ≡ true → holds_at f i e ≡ list_all (holds_at f i) (minterms e) }
{}

/// The minterms of trees that stand once stand once over their own roots, reach only what the trees reach, and are the minterms of
/// what stood there.
pub fn minterms_of_an_arena_stand_once()
    ensures once { (ex : List AExpr) (ns : List Node) (t : Trees AExpr) → StandsOnce expr_shape ex ns t → StandsOnce expr_shape ex (roots (minterm_trees t)) (minterm_trees t) }
    ensures within { (t : Trees AExpr) (k : ℕ) → Reaches (minterm_trees t) k → Reaches t k }
    ensures bare { (ex : List AExpr) (ns : List Node) (t : Trees AExpr) → Stands expr_shape ex ns t → listed (bare_exprs (minterm_trees t)) ≡ flat_map minterms (listed (bare_exprs t)) }
{}

/// Minterms of nested And, worked out: an Or and what stands below it is not taken apart.
pub fn minterms_are_the_operands_of_and()
    ensures { NestedAnd }
{}
