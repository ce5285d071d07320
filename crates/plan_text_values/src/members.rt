//! Short arrays and objects as JSON values. A member is made and put in one step, so that between two steps the object alone is
//! owned.
ghost use Rattle.std.specs.Prelude.{◌≡◌, IfOk, OnOk};
ghost use Rattle.serde_json.specs.Data.{string, array, no_items, item, put as with_member};
ghost use Rattle.serde_json.specs.View.{view, members_view};
ghost use Rattle.plan_text_pieces.specs.Values.{names_data, nullable_data, only_data, two_data};

use crate::values::names;
use plan_core::PlSmallStr;
use plan_text_pieces::done;
use serde_json::{Map, Value, push, put};
use std::alloc::{AllocError, Global};

/// The array of two values.
pub fn two(alloc: Global, first: Value, second: Value) -> Result<Value, AllocError>
    ensures { IfOk result (λ v. view v ≡ two_data (view first) (view second)) }
{
    let mut list = Vec::new(alloc);
    done!(push(&mut list, first));
    done!(push(&mut list, second));
    Ok(Value::Array(list))
}

/// The array of three values.
pub fn three(alloc: Global, first: Value, second: Value, third: Value) -> Result<Value, AllocError>
    ensures { IfOk result (λ v. view v ≡ array (item (view first) (item (view second) (item (view third) no_items)))) }
{
    let mut list = Vec::new(alloc);
    done!(push(&mut list, first));
    done!(push(&mut list, second));
    done!(push(&mut list, third));
    Ok(Value::Array(list))
}

/// The object of one key.
pub fn only(alloc: Global, key: &str, value: Value) -> Result<Value, AllocError>
    ensures { IfOk result (λ v. view v ≡ only_data key.now (view value)) }
{
    let mut map = Map::new(alloc);
    done!(put(&mut map, alloc, key, value));
    Ok(Value::Object(map))
}

/// A name, or null.
fn optional_name(alloc: Global, given: &Option<PlSmallStr>) -> Result<Value, AllocError>
    ensures { IfOk result (λ v. view v ≡ nullable_data string given.now) }
{
    match given {
        None => Ok(Value::Null),
        Some(name) => Value::try_from_str(alloc, name.as_str()),
    }
}

/// Puts a text under a key.
pub fn put_text(
    map: &mut Map<String, Value>,
    alloc: Global,
    key: &str,
    text: &str,
) -> Result<(), AllocError>
    ensures { OnOk result (members_view map.new.entries
        ≡ with_member key.now (string text.now) (members_view map.old.entries)) }
{
    let value = done!(Value::try_from_str(alloc, text));
    put(map, alloc, key, value)
}

/// Puts a name or null under a key.
pub fn put_optional_name(
    map: &mut Map<String, Value>,
    alloc: Global,
    key: &str,
    given: &Option<PlSmallStr>,
) -> Result<(), AllocError>
    ensures { OnOk result (members_view map.new.entries
        ≡ with_member key.now (nullable_data string given.now) (members_view map.old.entries)) }
{
    let value = done!(optional_name(alloc, given));
    put(map, alloc, key, value)
}

/// Puts the array of names under a key.
pub fn put_names(
    map: &mut Map<String, Value>,
    alloc: Global,
    key: &str,
    given: &[PlSmallStr],
) -> Result<(), AllocError>
    ensures { OnOk result (members_view map.new.entries
        ≡ with_member key.now (names_data given.now) (members_view map.old.entries)) }
{
    let array = done!(names(alloc, given));
    put(map, alloc, key, array)
}
