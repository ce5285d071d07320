//! Nodes over other parts.
ghost use Rattle.std.specs.Prelude.{◌≡◌, ◌≤◌, ◌∷◌, [], drop, length, slice_get, take, IfOk, IsTrue};
ghost use Rattle.plan_ir.specs.Parts.{exprs_of, inputs_of, list_of, options_over, over_parts, told_over, is_file_scan, is_frame_scan, is_group_by, is_hstack, is_join, is_over_many, is_over_one, is_select, is_sort};

use crate::ir::IR;
use crate::pairs::copy_both;
use crate::split::split_at;
use plan_core::{FileScanOptions, Items, Node, Schema, TryClone};
use plan_expr::ExprIR;
use plan_join::{JoinOptions, JoinTypeOptionsIR};
use plan_scan::HivePartitions;
use std::alloc::{AllocError, Global};

impl IR {
    /// A copy with other expressions, over other inputs: as many of each as the node has. Its other fields are as they were.
    pub fn over(
        &self,
        alloc: Global,
        exprs: Items<ExprIR>,
        inputs: Items<Node>,
    ) -> Result<IR, AllocError>
        requires exprs_fit { length exprs ≡ length (exprs_of self.now) }
        requires inputs_fit { length inputs ≡ length (inputs_of self.now) }
        ensures { IfOk result (λ node. node ≡ over_parts self.now exprs inputs) }
    {
        match self {
            IR::Filter { .. } => Ok(IR::Filter {
                input: only(inputs),
                predicate: only(exprs),
            }),
            IR::Scan { .. } => self.scan_over(alloc, at_most_one(exprs)),
            IR::DataFrameScan { .. } => self.frame_scan_copy(alloc),
            IR::Select { .. } => self.select_over(alloc, exprs, only(inputs)),
            IR::HStack { .. } => self.hstack_over(alloc, exprs, only(inputs)),
            IR::Sort { .. } => self.sort_over(alloc, exprs, only(inputs)),
            IR::GroupBy { .. } => self.group_by_over(alloc, exprs, only(inputs)),
            IR::Join { .. } => self.join_over(alloc, exprs, inputs),
            IR::Slice { .. }
            | IR::SimpleProjection { .. }
            | IR::Distinct { .. }
            | IR::MapFunction { .. }
            | IR::Sink { .. }
            | IR::Cache { .. } => self.over_one(alloc, only(inputs)),
            IR::Union { .. } | IR::HConcat { .. } => self.over_many(alloc, inputs),
            IR::Invalid => Ok(IR::Invalid),
        }
    }

    /// A copy of a node without expressions, over another input.
    fn over_one(&self, alloc: Global, input: Node) -> Result<IR, AllocError>
        requires { IsTrue (is_over_one self.now) }
        ensures { IfOk result (λ node. node ≡ over_parts self.now [] (input ∷ [])) }
    {
        match self {
            IR::Slice { offset, len, .. } => Ok(IR::Slice {
                input,
                offset: *offset,
                len: *len,
            }),
            IR::SimpleProjection { columns, .. } => Ok(IR::SimpleProjection {
                input,
                columns: columns.try_clone(alloc)?,
            }),
            IR::Distinct { options, .. } => Ok(IR::Distinct {
                input,
                options: options.try_clone(alloc)?,
            }),
            IR::MapFunction { function, .. } => Ok(IR::MapFunction {
                input,
                function: function.try_clone(alloc)?,
            }),
            IR::Sink { payload, .. } => Ok(IR::Sink {
                input,
                payload: *payload,
            }),
            IR::Cache { id, cache_hits, .. } => Ok(IR::Cache {
                input,
                id: *id,
                cache_hits: *cache_hits,
            }),
            _ => unreachable!(),
        }
    }

    /// A copy of a node over as many inputs as it names, over others.
    fn over_many(&self, alloc: Global, inputs: Items<Node>) -> Result<IR, AllocError>
        requires { IsTrue (is_over_many self.now) }
        ensures { IfOk result (λ node. node ≡ over_parts self.now [] inputs) }
    {
        match self {
            IR::Union { options, .. } => Ok(IR::Union {
                inputs,
                options: *options,
            }),
            IR::HConcat {
                schema,
                options,
                ..
            } => Ok(IR::HConcat {
                inputs,
                schema: schema.try_clone(alloc)?,
                options: *options,
            }),
            _ => unreachable!(),
        }
    }

    /// A copy of a scan of files, with a predicate or without one.
    fn scan_over(&self, alloc: Global, predicate: Option<ExprIR>) -> Result<IR, AllocError>
        requires { IsTrue (is_file_scan self.now) }
        ensures { IfOk result (λ node. node ≡ over_parts self.now (list_of predicate) []) }
    {
        match self {
            IR::Scan {
                sources,
                file_info,
                hive_parts,
                predicate: _,
                output_schema,
                scan_type,
                file_options,
            } => {
                let (sources, file_info) = copy_both(alloc, sources, file_info)?;
                let read = copy_read(alloc, hive_parts, output_schema, file_options)?;
                Ok(IR::Scan {
                    sources,
                    file_info,
                    hive_parts: read.hive_parts,
                    predicate,
                    output_schema: read.output_schema,
                    scan_type: *scan_type,
                    file_options: read.file_options,
                })
            }
            _ => unreachable!(),
        }
    }

    /// A copy of a scan of a frame.
    fn frame_scan_copy(&self, alloc: Global) -> Result<IR, AllocError>
        requires { IsTrue (is_frame_scan self.now) }
        ensures { IfOk result (λ node. node ≡ self.now) }
    {
        match self {
            IR::DataFrameScan {
                df,
                schema,
                output_schema,
            } => {
                let (schema, output_schema) = copy_both(alloc, schema, output_schema)?;
                Ok(IR::DataFrameScan {
                    df: *df,
                    schema,
                    output_schema,
                })
            }
            _ => unreachable!(),
        }
    }

    /// A copy of a selection with other expressions, over another input.
    fn select_over(&self, alloc: Global, expr: Items<ExprIR>, input: Node) -> Result<IR, AllocError>
        requires { IsTrue (is_select self.now) }
        ensures { IfOk result (λ node. node ≡ over_parts self.now expr (input ∷ [])) }
    {
        match self {
            IR::Select {
                schema,
                options,
                ..
            } => Ok(IR::Select {
                input,
                expr,
                schema: schema.try_clone(alloc)?,
                options: *options,
            }),
            _ => unreachable!(),
        }
    }

    /// A copy of an addition of columns with other expressions, over another input.
    fn hstack_over(
        &self,
        alloc: Global,
        exprs: Items<ExprIR>,
        input: Node,
    ) -> Result<IR, AllocError>
        requires { IsTrue (is_hstack self.now) }
        ensures { IfOk result (λ node. node ≡ over_parts self.now exprs (input ∷ [])) }
    {
        match self {
            IR::HStack {
                schema,
                options,
                ..
            } => Ok(IR::HStack {
                input,
                exprs,
                schema: schema.try_clone(alloc)?,
                options: *options,
            }),
            _ => unreachable!(),
        }
    }

    /// A copy of a sort by other keys, over another input.
    fn sort_over(
        &self,
        alloc: Global,
        by_column: Items<ExprIR>,
        input: Node,
    ) -> Result<IR, AllocError>
        requires { IsTrue (is_sort self.now) }
        ensures { IfOk result (λ node. node ≡ over_parts self.now by_column (input ∷ [])) }
    {
        match self {
            IR::Sort {
                slice,
                sort_options,
                ..
            } => Ok(IR::Sort {
                input,
                by_column,
                slice: *slice,
                sort_options: sort_options.try_clone(alloc)?,
            }),
            _ => unreachable!(),
        }
    }

    /// A copy of a grouping with other keys and aggregates, in turn, over another input.
    fn group_by_over(
        &self,
        alloc: Global,
        exprs: Items<ExprIR>,
        input: Node,
    ) -> Result<IR, AllocError>
        requires kind { IsTrue (is_group_by self.now) }
        requires exprs_fit { length exprs ≡ length (exprs_of self.now) }
        ensures { IfOk result (λ node. node ≡ over_parts self.now exprs (input ∷ [])) }
    {
        match self {
            IR::GroupBy {
                keys,
                schema,
                maintain_order,
                options,
                ..
            } => {
                let (keys, aggs) = split_at(alloc, exprs, keys.len())?;
                Ok(IR::GroupBy {
                    input,
                    keys,
                    aggs,
                    schema: schema.try_clone(alloc)?,
                    maintain_order: *maintain_order,
                    options: *options,
                })
            }
            _ => unreachable!(),
        }
    }

    /// A copy of a join with other keys and, where it has one, another condition, in turn, over other inputs.
    fn join_over(
        &self,
        alloc: Global,
        exprs: Items<ExprIR>,
        inputs: Items<Node>,
    ) -> Result<IR, AllocError>
        requires kind { IsTrue (is_join self.now) }
        requires exprs_fit { length exprs ≡ length (exprs_of self.now) }
        requires inputs_fit { length inputs ≡ 2 }
        ensures { IfOk result (λ node. node ≡ over_parts self.now exprs inputs) }
    {
        match self {
            IR::Join {
                schema,
                left_on,
                right_on,
                options,
                ..
            } => {
                let (input_left, input_right) = both(inputs);
                let told = join_told(alloc, exprs, left_on.len(), right_on.len(), options)?;
                let schema = schema.try_clone(alloc)?;
                Ok(IR::Join {
                    input_left,
                    input_right,
                    schema,
                    left_on: told.left_on,
                    right_on: told.right_on,
                    options: told.options,
                })
            }
            _ => unreachable!(),
        }
    }
}

/// The keys of a join, and what it is told.
#[derive(Drop)]
struct JoinTold {
    left_on: Items<ExprIR>,
    right_on: Items<ExprIR>,
    options: JoinOptions,
}

/// What a join is told with the first so many expressions as its left keys, as many behind them as are said as its right
/// keys, and the last one as its condition where it has one.
fn join_told(
    alloc: Global,
    exprs: Items<ExprIR>,
    left: usize,
    right: usize,
    options: &JoinOptions,
) -> Result<JoinTold, AllocError>
    requires left { left ≤ length exprs }
    requires right { right ≤ length (drop left exprs) }
    requires last { length (drop right (drop left exprs)) ≤ 1 }
    ensures left_on { IfOk result (λ told. told.left_on ≡ take left exprs) }
    ensures right_on { IfOk result (λ told. told.right_on ≡ take right (drop left exprs)) }
    ensures options { IfOk result (λ told. told.options ≡ options_over options.now (slice_get (drop right (drop left exprs)) 0)) }
{
    let (left_on, others) = split_at(alloc, exprs, left)?;
    let (right_on, last) = split_at(alloc, others, right)?;
    let options = options_over(alloc, options, at_most_one(last))?;
    Ok(JoinTold {
        left_on,
        right_on,
        options,
    })
}

/// What a join is told, with another condition where it has one.
fn options_over(
    alloc: Global,
    options: &JoinOptions,
    condition: Option<ExprIR>,
) -> Result<JoinOptions, AllocError>
    ensures { IfOk result (λ copy. copy ≡ options_over options.now condition) }
{
    let told = told_over(alloc, &options.options, condition)?;
    let args = options.args.try_clone(alloc)?;
    Ok(JoinOptions {
        allow_parallel: options.allow_parallel,
        force_parallel: options.force_parallel,
        args,
        options: told,
    })
}

/// What only a kind of joins is told, with another condition where it has one.
fn told_over(
    alloc: Global,
    told: &Option<JoinTypeOptionsIR>,
    condition: Option<ExprIR>,
) -> Result<Option<JoinTypeOptionsIR>, AllocError>
    ensures { IfOk result (λ copy. copy ≡ told_over told.now condition) }
{
    match (told, condition) {
        (Some(JoinTypeOptionsIR::Cross { .. }), Some(predicate)) => {
            Ok(Some(JoinTypeOptionsIR::Cross { predicate }))
        }
        (told, _) => told.try_clone(alloc),
    }
}

/// What a scan reads of its files, and puts out.
#[derive(Drop)]
struct Read {
    hive_parts: Option<Items<HivePartitions>>,
    output_schema: Option<Schema>,
    file_options: FileScanOptions,
}

/// A copy of what a scan reads of its files, and puts out.
fn copy_read(
    alloc: Global,
    hive_parts: &Option<Items<HivePartitions>>,
    output_schema: &Option<Schema>,
    file_options: &FileScanOptions,
) -> Result<Read, AllocError>
    ensures hive_parts { IfOk result (λ read. read.hive_parts ≡ hive_parts.now) }
    ensures output_schema { IfOk result (λ read. read.output_schema ≡ output_schema.now) }
    ensures file_options { IfOk result (λ read. read.file_options ≡ file_options.now) }
{
    let (hive_parts, output_schema) = copy_both(alloc, hive_parts, output_schema)?;
    let file_options = file_options.try_clone(alloc)?;
    Ok(Read {
        hive_parts,
        output_schema,
        file_options,
    })
}

/// The value of a list of one.
fn only<T: Drop>(mut items: Items<T>) -> T
    requires { length items ≡ 1 }
    ensures { items ≡ result ∷ [] }
{
    match items.pop() {
        Some(value) => value,
        None => unreachable!(),
    }
}

/// The values of a list of two.
fn both<T: Drop>(mut items: Items<T>) -> (T, T)
    requires { length items ≡ 2 }
    ensures { items ≡ result.0 ∷ result.1 ∷ [] }
{
    match (items.pop(), items.pop()) {
        (Some(second), Some(first)) => (first, second),
        _ => unreachable!(),
    }
}

/// The value of a list of at most one, if it has one.
fn at_most_one<T: Drop>(mut items: Items<T>) -> Option<T>
    requires { length items ≤ 1 }
    ensures { items ≡ list_of result }
{
    items.pop()
}
