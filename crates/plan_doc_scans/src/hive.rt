//! The readers of hive parts.
ghost use Rattle.std.specs.Prelude.{Some};
ghost use Rattle.serde_json.specs.View.{view};
ghost use Rattle.plan_doc_parts.specs.Gives.{Gives};
ghost use Rattle.plan_doc_parts.specs.Members.{at};
ghost use Rattle.plan_doc_parts.specs.Parts.{nullable};
ghost use Rattle.plan_scan.specs.Stats.{Fits, with_values};
ghost use Rattle.plan_doc_scans.specs.Hive.{hive_column_of, hive_part_of, hive_parts_of};

use plan_core::{Items, Schema};
use plan_doc_parts::{Fault, any_value, data_type, each, entries, field, name, read, three};
use plan_scan::{ColumnStats, Field, HivePartitions};
use plan_table::AnyValue;
use serde_json::Value;
use std::alloc::Global;

/// The name, the type and the value of an array of three; the value is null or of the type.
#[tactic(auto, using(plan_doc_parts::proofs::NoneLemmas::bind_none), unfolding(crate::specs::Hive::hive_column_of))]
fn hive_column(alloc: Global, value: &Value) -> Result<ColumnStats, Fault>
    ensures { Gives result (hive_column_of (view value.now)) }
{
    let (name_value, type_value, value) = read!(three(value));
    let dtype = read!(data_type(type_value));
    let name = read!(name(alloc, name_value));
    let value = read!(any_value(alloc, dtype, value));
    Ok(ColumnStats {
        field: Field { name, dtype },
        value,
    })
}

/// The columns of a schema with these values.
fn partitions(
    alloc: Global,
    schema: Schema,
    values: Items<AnyValue>,
) -> Result<HivePartitions, Fault>
    requires { Fits schema values }
    ensures { Gives result (Some (with_values schema values)) }
{
    Ok(HivePartitions::new(alloc, schema, values)?)
}

/// The hive columns of one source, no name twice.
#[tactic(auto, unfolding(crate::specs::Hive::hive_part_of))]
fn hive_part(alloc: Global, value: &Value) -> Result<HivePartitions, Fault>
    ensures { Gives result (hive_part_of (view value.now)) }
{
    let entries = read!(entries(value));
    let mut schema = Schema::new(alloc);
    let mut values = Items::new(alloc);
    for entry in entries {
        let ColumnStats { field, value } = read!(hive_column(alloc, entry));
        match schema.with_column(field.name, field.dtype)? {
            None => {}
            Some(_) => return Err(Fault::Form),
        }
        values.push(value)?;
    }
    partitions(alloc, schema, values)
}

/// The hive columns of each source.
#[tactic(auto, unfolding(crate::specs::Hive::hive_parts_of))]
fn hive_parts(alloc: Global, value: &Value) -> Result<Items<HivePartitions>, Fault>
    ensures { Gives result (hive_parts_of (view value.now)) }
{
    let entries = entries(value)?;
    each(alloc, entries, |entry| hive_part(alloc, entry))
}

/// Under a key null, or the hive columns of each source.
#[tactic(auto, using(plan_doc_parts::proofs::NullLemmas::nullable_null, plan_doc_parts::proofs::NullLemmas::nullable_other), unfolding(plan_doc_parts::specs::Members::at))]
pub fn optional_hive_parts_at(
    alloc: Global,
    object: &Value,
    key: &str,
) -> Result<Option<Items<HivePartitions>>, Fault>
    ensures { Gives result (at key.now (nullable hive_parts_of) (view object.now)) }
{
    let value = read!(field(object, key));
    if value.is_null() {
        return Ok(None);
    }
    Ok(Some(read!(hive_parts(alloc, value))))
}
