//! Laws of values and of what expressions mean, as the contracts of functions that do nothing.
ghost use Rattle.std.specs.Prelude.{◌≡◌, Decides, Some, true};
ghost use Rattle.plan_core.specs.Columns.{Columns};
ghost use Rattle.plan_core.specs.declared.data_type.DataType.{DataType};
ghost use Rattle.plan_expr.specs.Exprs.{Expr};
ghost use Rattle.plan_expr.specs.Leaves.{leaves};
ghost use Rattle.plan_expr.specs.Scalars.{is_scalar};
ghost use Rattle.plan_frame.specs.Exprs.{expr_type};
ghost use Rattle.plan_frame.specs.Frames.{Frame, HasSchema, Agree};
ghost use Rattle.plan_frame.specs.Meaning.{val, one, CellHas};
ghost use Rattle.plan_frame.specs.Values.{Value, same_value};

/// What an expression means depends only on the height of a frame and on the columns that it reads.
pub fn meaning_depends_on_leaves()
    ensures { (e : Expr) (f g : Frame) → Agree (leaves e) f g → val e f ≡ val e g }
{}

/// The values of an expression that has a type are of it, and one or as many as there are rows.
pub fn values_have_their_type()
    ensures { (e : Expr) (s : Columns) (f : Frame) (t : DataType) → HasSchema f s → expr_type e s ≡ Some t → CellHas t f.height (val e f) }
{}

/// Two values are the same just where they are equal.
pub fn same_values_are_equal()
    ensures { (x y : Value) → Decides (same_value x y) (x ≡ y) }
{}

/// A scalar expression has one value over each frame.
pub fn scalar_expressions_have_one_value()
    ensures { (e : Expr) (f : Frame) → is_scalar e ≡ true → (v : Value) × (val e f ≡ one v) }
{}
