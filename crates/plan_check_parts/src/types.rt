//! Tests of the type of an expression, if it has one.
ghost use Rattle.std.specs.Prelude.{◌≡◌};
ghost use Rattle.plan_core.specs.declared.data_type.DataType.TheVariants.{Boolean};
ghost use Rattle.plan_frame.specs.Exprs.{is_type};
ghost use Rattle.plan_meaning.specs.Checks.{is_plain_type};

use plan_core::DataType;

/// Whether there is a type, and it is Boolean.
pub fn is_boolean(dtype: Option<DataType>) -> bool
    ensures { result ≡ is_type dtype Boolean }
{
    matches!(dtype, Some(DataType::Boolean))
}

/// Whether there is a type, and it is plain.
pub fn is_plain(dtype: Option<DataType>) -> bool
    ensures { result ≡ is_plain_type dtype }
{
    match dtype {
        None => false,
        Some(DataType::List(_)) => false,
        Some(_) => true,
    }
}
