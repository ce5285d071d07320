//! The columns that the plan at a number says it has: those that its node stores, those that a function gives, else those of
//! its input.
ghost use Rattle.std.specs.Prelude.{◌≡◌, List, [], ◌∷◌, IfOk};
ghost use Rattle.plan_tree.specs.Stands.{Trees, StandsOnce};
ghost use Rattle.plan_expr.specs.declared.aexpr.AExpr.{AExpr};
ghost use Rattle.plan_ir.specs.declared.ir.IR.{IR};
ghost use Rattle.plan_ir.specs.Parts.{IsPlan, plan_shape};
ghost use Rattle.plan_ir.specs.Plans.{bare, plans_at};
ghost use Rattle.plan_meaning.specs.PlanAt.{plan_at};
ghost use Rattle.plan_meaning.specs.Steps.{IsValid};
ghost use Rattle.plan_meaning.specs.Typing.{columns_or, first_schema, schema};
ghost use Rattle.plan_schema.specs.Stored.{columns_told, given_by, stored_all, wants_memory};

use crate::function_schema;
use plan_core::{Arena, Node, PolarsError, Schema, TryClone};
use plan_ir::{FunctionIR, IR};
use std::alloc::{AllocError, Global};

/// The columns that a plan says it has.
#[derive(Drop)]
pub enum StoredSchema<'a> {
    /// Those that a node stores.
    Stored(&'a Schema),
    /// Those that a function gives, which no node stores.
    Given(Schema),
}

impl<'a> StoredSchema<'a> {
    /// The columns.
    pub fn columns(&self) -> &Schema
        ensures { result.now ≡ columns_told self.now }
    {
        match self {
            StoredSchema::Stored(schema) => schema,
            StoredSchema::Given(schema) => schema,
        }
    }

    /// The columns by themselves: a copy, where a node stores them. Refuses for want of memory alone.
    pub fn into_schema(self, alloc: Global) -> Result<Schema, AllocError>
        ensures { IfOk result (λ schema. schema ≡ columns_told self.entry) }
    {
        match self {
            StoredSchema::Stored(schema) => schema.try_clone(alloc),
            StoredSchema::Given(schema) => Ok(schema),
        }
    }
}

/// The columns that are told, else the others.
fn told<'a>(output: &'a Option<Schema>, columns: &'a Schema) -> &'a Schema
    ensures { result.now ≡ columns_or output.now columns.now }
{
    match output {
        Some(told) => told,
        None => columns,
    }
}

/// Whether a fault is want of memory.
fn is_memory(fault: &PolarsError) -> bool
    ensures { result ≡ wants_memory fault.now }
{
    matches!(fault, PolarsError::OutOfMemory)
}

/// The columns that a function gives over some; none where a check on it fails. Refuses for want of memory alone.
fn given(
    alloc: Global,
    node: Node,
    function: &FunctionIR,
    columns: &Schema,
) -> Result<Schema, AllocError>
    ensures { IfOk result (λ schema. schema ≡ given_by function.now columns.now) }
{
    match function_schema(alloc, node, function, columns) {
        Ok(schema) => Ok(schema),
        Err(fault) if is_memory(&fault) => Err(AllocError),
        Err(_) => Ok(Schema::new(alloc)),
    }
}

/// The columns that the plan at a number says it has. Refuses for want of memory alone.
fn stored<'a>(alloc: Global, node: Node, lp: &'a Arena<IR>) -> Result<StoredSchema<'a>, AllocError>
    requires { (t : Trees IR) × StandsOnce plan_shape lp.now (node ∷ []) t }
    ensures { IfOk result (λ stored. (ex : List AExpr) → columns_told stored ≡ first_schema (stored_all (bare (plans_at lp.now ex (node ∷ []))))) }
{
    match lp.get(node) {
        IR::Slice { input, .. } => stored(alloc, *input, lp),
        IR::Filter { input, .. } => stored(alloc, *input, lp),
        IR::Sort { input, .. } => stored(alloc, *input, lp),
        IR::Distinct { input, .. } => stored(alloc, *input, lp),
        IR::Sink { input, .. } => stored(alloc, *input, lp),
        IR::Cache { input, .. } => stored(alloc, *input, lp),
        IR::MapFunction { input, function } => {
            let below = stored(alloc, *input, lp)?;
            let schema = given(alloc, node, function, below.columns())?;
            Ok(StoredSchema::Given(schema))
        }
        IR::Union { inputs, .. } => match inputs.as_slice().first() {
            Some(input) => stored(alloc, *input, lp),
            None => Ok(StoredSchema::Given(Schema::new(alloc))),
        },
        IR::Scan {
            output_schema,
            file_info,
            ..
        } => Ok(StoredSchema::Stored(told(output_schema, &file_info.schema))),
        IR::DataFrameScan {
            output_schema,
            schema,
            ..
        } => Ok(StoredSchema::Stored(told(output_schema, schema))),
        IR::SimpleProjection { columns, .. } => Ok(StoredSchema::Stored(columns)),
        IR::Select { schema, .. } => Ok(StoredSchema::Stored(schema)),
        IR::HStack { schema, .. } => Ok(StoredSchema::Stored(schema)),
        IR::GroupBy { schema, .. } => Ok(StoredSchema::Stored(schema)),
        IR::Join { schema, .. } => Ok(StoredSchema::Stored(schema)),
        IR::HConcat { schema, .. } => Ok(StoredSchema::Stored(schema)),
        IR::Invalid => unreachable!(),
    }
}

/// The columns that the plan at a number says it has: those that its node stores, those that a function gives over what its input
/// says, else those of its first input; none where a union has no inputs, or a check on a function fails. Of a valid plan they are
/// its columns. Refuses for want of memory alone.
pub fn stored_schema<'a>(
    alloc: Global,
    node: Node,
    lp: &'a Arena<IR>,
) -> Result<StoredSchema<'a>, AllocError>
    requires { (t : Trees IR) × StandsOnce plan_shape lp.now (node ∷ []) t }
    ensures stored { IfOk result (λ stored. (ex : List AExpr) → columns_told stored ≡ first_schema (stored_all (bare (plans_at lp.now ex (node ∷ []))))) }
    ensures valid { IfOk result (λ stored. (ex : List AExpr) → IsPlan lp.now ex node → IsValid (plan_at lp.now ex node) → columns_told stored ≡ schema (plan_at lp.now ex node)) }
{
    stored(alloc, node, lp)
}
