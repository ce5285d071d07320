//! From which column of its sides a join takes one that it puts out.
ghost use Rattle.std.specs.Prelude.{◌≡◌, ◌++◌, ◌&&◌, IfSome, IfNone, None, Some, is_some, slice_get};
ghost use Rattle.std.specs.Str.{bytes_eq};
ghost use Rattle.plan_core.specs.declared.data_type.DataType.{DataType};
ghost use Rattle.plan_core.specs.Columns.{names_of};
ghost use Rattle.plan_core.specs.Names.{has};
ghost use Rattle.plan_options.specs.Join.{suffix_of};
ghost use Rattle.plan_expr.specs.Leaves.{Name};
ghost use Rattle.plan_join.specs.declared.origin.Side.TheVariants.{Right as on_right};
ghost use Rattle.plan_join.specs.Naming.{key_columns, left_rest, origin, right_name, side_columns, LieIn};
ghost use Rattle.plan_join.specs.Origins.{puts_out_left, puts_out_right, right_origin};

use crate::options::JoinOptions;
use crate::schema::{gives_right, is_left_dropped};
use plan_core::{Arena, Schema};
use plan_expr::{AExpr, ExprIR};
use plan_options::JoinArgs;

/// A side of a join.
#[derive(Clone, Copy, PartialEq, Eq, Hash, Debug)]
pub enum Side {
    /// The left input.
    Left,
    /// The right input.
    Right,
}

/// Whether one of the keys is the column of this name.
fn is_key(name: &str, keys: &[ExprIR], ex: &Arena<AExpr>) -> bool
    requires { LieIn ex.now keys.now }
    ensures { result ≡ has (key_columns ex.now keys.now) name.now }
{
    for key in keys {
        if let Some(own) = ex.get(key.node).column_name() {
            if name == own {
                return true;
            }
        }
    }
    false
}

/// Whether a join puts out a left column of this name.
fn is_left_put_out(args: &JoinArgs, keys: &[ExprIR], ex: &Arena<AExpr>, name: &str) -> bool
    requires { LieIn ex.now keys.now }
    ensures { result ≡ puts_out_left args.now (key_columns ex.now keys.now) name.now }
{
    if args.should_coalesce() && is_left_dropped(args.how) {
        return !is_key(name, keys, ex);
    }
    true
}

/// Whether a join puts out a right column of this name.
fn is_right_put_out(args: &JoinArgs, keys: &[ExprIR], ex: &Arena<AExpr>, name: &str) -> bool
    requires { LieIn ex.now keys.now }
    ensures { result ≡ puts_out_right args.now (key_columns ex.now keys.now) name.now }
{
    if !gives_right(args.how) {
        return false;
    }
    if args.should_coalesce() && !is_left_dropped(args.how) {
        return !is_key(name, keys, ex);
    }
    true
}

/// The place of a left column, where it is there and the join puts it out.
fn left_place(
    args: &JoinArgs,
    keys: &[ExprIR],
    left: &Schema,
    ex: &Arena<AExpr>,
    name: &str,
) -> Option<usize>
    requires { LieIn ex.now keys.now }
    ensures there { is_some result ≡ has (names_of (left_rest args.now (key_columns ex.now keys.now) left.now)) name.now }
    ensures place { IfSome result (λ place. (d : DataType) × (slice_get left.now place ≡ Some (name.now, d))) }
{
    if !is_left_put_out(args, keys, ex, name) {
        return None;
    }
    left.index_of(name)
}

/// Whether a name is another with the suffix behind it.
fn is_joined(own: &str, suffix: &str, name: &str) -> bool
    ensures { result ≡ bytes_eq name.now (own.now ++ suffix.now) }
{
    match name.as_bytes().strip_suffix(suffix.as_bytes()) {
        Some(front) => front == own.as_bytes(),
        None => false,
    }
}

/// Whether a right column, by its own name, is put out under a name.
fn is_called(
    args: &JoinArgs,
    left_on: &[ExprIR],
    left: &Schema,
    ex: &Arena<AExpr>,
    own: &str,
    name: &str,
) -> bool
    requires { LieIn ex.now left_on.now }
    ensures { result ≡ bytes_eq name.now (right_name (suffix_of args.now) (names_of (left_rest args.now (key_columns ex.now left_on.now) left.now)) own.now) }
{
    let is_joined = is_joined(own, args.suffix(), name);
    let is_same = name == own;
    if !is_joined && !is_same {
        return false;
    }
    if left_place(args, left_on, left, ex, own).is_some() {
        is_joined
    } else {
        is_same
    }
}

/// Whether a right column, by its own name, is there and is put out under a name.
fn is_given(
    args: &JoinArgs,
    left_on: &[ExprIR],
    right_on: &[ExprIR],
    left: &Schema,
    ex: &Arena<AExpr>,
    own: &str,
    name: &str,
) -> bool
    requires left_keys { LieIn ex.now left_on.now }
    requires right_keys { LieIn ex.now right_on.now }
    ensures { result ≡ (bytes_eq name.now (right_name (suffix_of args.now) (names_of (left_rest args.now (key_columns ex.now left_on.now) left.now)) own.now) && puts_out_right args.now (key_columns ex.now right_on.now) own.now) }
{
    is_called(args, left_on, left, ex, own, name) && is_right_put_out(args, right_on, ex, own)
}

/// The place of the first right column that a join puts out under a name.
fn right_place(
    args: &JoinArgs,
    left_on: &[ExprIR],
    right_on: &[ExprIR],
    left: &Schema,
    right: &Schema,
    ex: &Arena<AExpr>,
    name: &str,
) -> Option<usize>
    requires left_keys { LieIn ex.now left_on.now }
    requires right_keys { LieIn ex.now right_on.now }
    ensures some { IfSome result (λ place. (c : Name × DataType) × (slice_get right.now place ≡ Some c) × (right_origin args.now (key_columns ex.now left_on.now) (key_columns ex.now right_on.now) left.now right.now name.now ≡ Some (on_right, c.0))) }
    ensures none { IfNone result (right_origin args.now (key_columns ex.now left_on.now) (key_columns ex.now right_on.now) left.now right.now name.now ≡ None) }
{
    for place in 0..right.len() {
        if let Some((own, _)) = right.get_at_index(place) {
            if is_given(args, left_on, right_on, left, ex, own, name) {
                return Some(place);
            }
        }
    }
    None
}

/// The column from which a join takes the first that it puts out under a name: its side, and its place there, counted from
/// 0; None exactly where it puts out none of that name. The time is that of going once over the right names and the keys.
pub fn join_origin(
    left: &Schema,
    right: &Schema,
    left_on: &[ExprIR],
    right_on: &[ExprIR],
    options: &JoinOptions,
    ex: &Arena<AExpr>,
    name: &str,
) -> Option<(Side, usize)>
    requires left_keys { LieIn ex.now left_on.now }
    requires right_keys { LieIn ex.now right_on.now }
    ensures some { IfSome result (λ p. (c : Name × DataType) × (slice_get (side_columns left.now right.now p.0) p.1 ≡ Some c) × (origin options.now.args (key_columns ex.now left_on.now) (key_columns ex.now right_on.now) left.now right.now name.now ≡ Some (p.0, c.0))) }
    ensures none { IfNone result (origin options.now.args (key_columns ex.now left_on.now) (key_columns ex.now right_on.now) left.now right.now name.now ≡ None) }
{
    let args = &options.args;
    if let Some(place) = left_place(args, left_on, left, ex, name) {
        return Some((Side::Left, place));
    }
    let place = right_place(args, left_on, right_on, left, right, ex, name)?;
    Some((Side::Right, place))
}
