//! What operators give for two values.
ghost use Rattle.std.specs.Prelude.{◌≡◌};
ghost use Rattle.std.specs.Int.{w64, int_wrapping_add, int_wrapping_sub, int_wrapping_mul};
ghost use Rattle.plan_frame.specs.Meaning.{operated as operated_of, compared, both_true as and_of, one_true as or_of, differ as xor_of, reckoned};
ghost use Rattle.plan_frame.specs.Values.{same_value, value_cmp};
ghost use Rattle.plan_value.specs.Shown.{value_of};

use plan_expr::Operator;
use plan_table::AnyValue;
use std::cmp::Ordering;

/// How two values of one type, which is no list, stand: numbers by size, texts by their bytes, false before true.
pub fn ordering(left: &AnyValue, right: &AnyValue) -> Ordering
    ensures { result ≡ value_cmp (value_of left.now) (value_of right.now) }
{
    match (left, right) {
        (AnyValue::Int64(a), AnyValue::Int64(b)) => a.cmp(b),
        (AnyValue::String(a), AnyValue::String(b)) => a.as_str().cmp(b.as_str()),
        (AnyValue::Boolean(a), AnyValue::Boolean(b)) => a.cmp(b),
        _ => Ordering::Equal,
    }
}

/// A truth value, where neither side is null; else null.
fn known(left: &AnyValue, right: &AnyValue, truth: bool) -> AnyValue
    ensures { value_of result ≡ compared (λ _. truth) (value_of left.now) (value_of right.now) }
{
    match (left, right) {
        (AnyValue::Null, _) | (_, AnyValue::Null) => AnyValue::Null,
        _ => AnyValue::Boolean(truth),
    }
}

/// Whether two values are the same, null being the same as null alone, and lists value by value.
#[tactic(auto, using(crate::proofs::SameLemmas::values_same))]
pub fn same(left: &AnyValue, right: &AnyValue) -> bool
    ensures { result ≡ same_value (value_of left.now) (value_of right.now) }
{
    left == right
}

/// False where a side is false, true where both are true, else null.
fn both_true(left: &AnyValue, right: &AnyValue) -> AnyValue
    ensures { value_of result ≡ and_of (value_of left.now) (value_of right.now) }
{
    match (left, right) {
        (AnyValue::Boolean(false), _) | (_, AnyValue::Boolean(false)) => AnyValue::Boolean(false),
        (AnyValue::Boolean(true), AnyValue::Boolean(true)) => AnyValue::Boolean(true),
        _ => AnyValue::Null,
    }
}

/// True where a side is true, false where both are false, else null.
fn one_true(left: &AnyValue, right: &AnyValue) -> AnyValue
    ensures { value_of result ≡ or_of (value_of left.now) (value_of right.now) }
{
    match (left, right) {
        (AnyValue::Boolean(true), _) | (_, AnyValue::Boolean(true)) => AnyValue::Boolean(true),
        (AnyValue::Boolean(false), AnyValue::Boolean(false)) => AnyValue::Boolean(false),
        _ => AnyValue::Null,
    }
}

/// Whether just one side is true; null where a side is null.
fn differ(left: &AnyValue, right: &AnyValue) -> AnyValue
    ensures { value_of result ≡ xor_of (value_of left.now) (value_of right.now) }
{
    match (left, right) {
        (AnyValue::Boolean(a), AnyValue::Boolean(b)) => AnyValue::Boolean(*a != *b),
        _ => AnyValue::Null,
    }
}

/// The sum, wrapped to 64 bits; null where a side is null.
fn plus(left: &AnyValue, right: &AnyValue) -> AnyValue
    ensures { value_of result ≡ reckoned (int_wrapping_add w64) (value_of left.now) (value_of right.now) }
{
    match (left, right) {
        (AnyValue::Int64(a), AnyValue::Int64(b)) => AnyValue::Int64(a.wrapping_add(*b)),
        _ => AnyValue::Null,
    }
}

/// The left side less the right one, wrapped to 64 bits; null where a side is null.
fn minus(left: &AnyValue, right: &AnyValue) -> AnyValue
    ensures { value_of result ≡ reckoned (int_wrapping_sub w64) (value_of left.now) (value_of right.now) }
{
    match (left, right) {
        (AnyValue::Int64(a), AnyValue::Int64(b)) => AnyValue::Int64(a.wrapping_sub(*b)),
        _ => AnyValue::Null,
    }
}

/// The product, wrapped to 64 bits; null where a side is null.
fn times(left: &AnyValue, right: &AnyValue) -> AnyValue
    ensures { value_of result ≡ reckoned (int_wrapping_mul w64) (value_of left.now) (value_of right.now) }
{
    match (left, right) {
        (AnyValue::Int64(a), AnyValue::Int64(b)) => AnyValue::Int64(a.wrapping_mul(*b)),
        _ => AnyValue::Null,
    }
}

/// What an operator gives for two values.
pub fn operated(op: Operator, left: &AnyValue, right: &AnyValue) -> AnyValue
    ensures { value_of result ≡ operated_of op (value_of left.now) (value_of right.now) }
{
    match op {
        Operator::Eq => known(left, right, ordering(left, right).is_eq()),
        Operator::NotEq => known(left, right, ordering(left, right).is_ne()),
        Operator::Lt => known(left, right, ordering(left, right).is_lt()),
        Operator::LtEq => known(left, right, ordering(left, right).is_le()),
        Operator::Gt => known(left, right, ordering(left, right).is_gt()),
        Operator::GtEq => known(left, right, ordering(left, right).is_ge()),
        Operator::EqValidity => AnyValue::Boolean(same(left, right)),
        Operator::NotEqValidity => AnyValue::Boolean(!same(left, right)),
        Operator::And => both_true(left, right),
        Operator::Or => one_true(left, right),
        Operator::Xor => differ(left, right),
        Operator::Plus => plus(left, right),
        Operator::Minus => minus(left, right),
        Operator::Multiply => times(left, right),
    }
}
