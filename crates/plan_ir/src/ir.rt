//! The nodes of a plan.
ghost use Rattle.std.specs.Prelude.{◌≡◌, IfOk};

use crate::functions::FunctionIR;
use crate::scan::FileInfo;
use plan_core::{FileScanOptions, Items, Node, ProjectionOptions, Schema, TryClone};
use plan_expr::ExprIR;
use plan_join::JoinOptions;
use plan_options::{
    DistinctOptionsIR, GroupbyOptions, HConcatOptions, SinkType, SortMultipleOptions, UnionOptions,
};
use plan_scan::{FileScan, HivePartitions, ScanSources};
use std::alloc::{AllocError, Global};

/// A node of a plan; it names its inputs and its expressions by their numbers.
#[derive(Drop)]
pub enum IR {
    /// The rows from a first one on, as many as there are up to `len`. An offset below zero counts from the end.
    Slice {
        /// The number of the node whose rows are cut.
        input: Node,
        /// The first row that is kept, counted from 0, or below zero from the end.
        offset: i64,
        /// How many rows are kept at most.
        len: u32,
    },
    /// The rows for which the predicate is true.
    Filter {
        /// The number of the node whose rows are filtered.
        input: Node,
        /// A Boolean expression over the columns of the input.
        predicate: ExprIR,
    },
    /// The rows of files or buffers, one source after another, with a column that numbers them, the hive columns of each source and
    /// a column with its path, where there are such.
    Scan {
        /// The sources, in order.
        sources: ScanSources,
        /// The columns of the files.
        file_info: FileInfo,
        /// The hive columns of each source, in the order of the sources; absent where folders name no columns.
        hive_parts: Option<Items<HivePartitions>>,
        /// Which rows are put out; all of them where it is absent.
        predicate: Option<ExprIR>,
        /// The columns that are put out, in order; all columns of the files where it is absent.
        output_schema: Option<Schema>,
        /// The format of the files.
        scan_type: FileScan,
        /// What is read of the files, and how.
        file_options: FileScanOptions,
    },
    /// The columns of a frame that is handed in under a number; without a number the frame without rows and columns.
    DataFrameScan {
        /// The number of the frame; None is the frame without rows and columns.
        df: Option<u32>,
        /// The columns of the frame.
        schema: Schema,
        /// The columns that are put out, in order; all columns of the frame where it is absent.
        output_schema: Option<Schema>,
    },
    /// Some columns of the input, in the order of `columns`.
    SimpleProjection {
        /// The number of the node whose columns are taken.
        input: Node,
        /// Columns of the input, with the types that they have there.
        columns: Schema,
    },
    /// A column for each expression, and no others; `schema` lists them. It has one row where all are scalar.
    Select {
        /// The number of the node whose columns the expressions read.
        input: Node,
        /// The expressions, in the order of their columns.
        expr: Items<ExprIR>,
        /// The columns of the node, in order.
        schema: Schema,
        /// How the expressions are evaluated.
        options: ProjectionOptions,
    },
    /// The columns of the input, and one for each expression: in the place of the input's column of its name, or last.
    /// `schema` lists them all.
    HStack {
        /// The number of the node whose columns the expressions read, and stand beside.
        input: Node,
        /// The expressions, in order; no two of one name.
        exprs: Items<ExprIR>,
        /// The columns of the node, in order.
        schema: Schema,
        /// How the expressions are evaluated.
        options: ProjectionOptions,
    },
    /// The rows of the input in the order of some keys, the first key first.
    Sort {
        /// The number of the node whose rows are sorted.
        input: Node,
        /// The keys, in order.
        by_column: Items<ExprIR>,
        /// The first row that is put out, and how many rows; all of them where it is absent.
        slice: Option<(i64, usize)>,
        /// The direction of each key, where its nulls stand, and whether rows with the same keys stay in order.
        sort_options: SortMultipleOptions,
    },
    /// A row for each group of rows that have the same keys, null being the same as null: the keys, and what each aggregate is
    /// over the rows of the group, in their order; where an aggregate has a value for each row, their list. `schema` lists the
    /// columns.
    GroupBy {
        /// The number of the node whose rows are grouped.
        input: Node,
        /// The keys, in the order of their columns.
        keys: Items<ExprIR>,
        /// The aggregates, in the order of their columns, which stand behind those of the keys.
        aggs: Items<ExprIR>,
        /// The columns of the node, in order.
        schema: Schema,
        /// Whether the groups stand in the order of their first rows.
        maintain_order: bool,
        /// Which groups are put out.
        options: GroupbyOptions,
    },
    /// For pairs of rows that match, a row of the columns of both; by its kind also rows that match none, with null where a row
    /// is absent. `schema` lists the columns.
    Join {
        /// The number of the node whose rows are the left ones.
        input_left: Node,
        /// The number of the node whose rows are the right ones.
        input_right: Node,
        /// The columns of the node, in order.
        schema: Schema,
        /// The keys over the left columns, in order; as many as over the right ones.
        left_on: Items<ExprIR>,
        /// The keys over the right columns, in order.
        right_on: Items<ExprIR>,
        /// Which pairs of rows there are, in which order, and how the columns are named.
        options: JoinOptions,
    },
    /// Of the rows that are the same in some columns one, or those that are alone.
    Distinct {
        /// The number of the node whose rows are told apart.
        input: Node,
        /// In which columns rows are the same, which of them is kept, and whether those that are kept stay in order.
        options: DistinctOptionsIR,
    },
    /// What a function makes of the whole input.
    MapFunction {
        /// The number of the node whose frame the function is given.
        input: Node,
        /// The function.
        function: FunctionIR,
    },
    /// The input, whose rows go somewhere.
    Sink {
        /// The number of the node whose rows go there.
        input: Node,
        /// Where they go.
        payload: SinkType,
    },
    /// The rows of the inputs, those of one after those of another.
    Union {
        /// The numbers of the nodes whose rows are put together, in order.
        inputs: Items<Node>,
        /// Whether the rows stay in the order of the inputs, and how they are put together.
        options: UnionOptions,
    },
    /// The columns of the inputs side by side, those of one after those of another; a shorter input has null in the rows that it
    /// lacks. `schema` lists the columns.
    HConcat {
        /// The numbers of the nodes whose columns are put together, in order.
        inputs: Items<Node>,
        /// The columns of the node, in order.
        schema: Schema,
        /// How they are put together.
        options: HConcatOptions,
    },
    /// The input, whose rows are kept for all caches of one number.
    Cache {
        /// The number of the node whose rows are kept.
        input: Node,
        /// The number that caches of the same rows have in common.
        id: u32,
        /// How often the rows are asked for.
        cache_hits: u32,
    },
    /// No node: what `take` leaves behind.
    Invalid,
}

impl Default for IR {
    ghost use Rattle.std.specs.Prelude.{◌≡◌};
    ghost use Rattle.plan_ir.specs.declared.ir.IR.TheVariants.{Invalid};

    ghost is_default = { λ p. p ≡ Invalid };

    fn default() -> Self {
        IR::Invalid
    }
}

impl IR {
    ghost use Rattle.plan_ir.specs.Reads.{is_scan};

    /// Whether the node is a scan, of files or of a frame that is handed in.
    pub fn is_scan(&self) -> bool
        ensures { result ≡ is_scan self.now }
    {
        matches!(self, IR::Scan { .. } | IR::DataFrameScan { .. })
    }
}

impl TryClone for IR {
    fn try_clone(&self, alloc: Global) -> Result<Self, AllocError>
        ensures { IfOk result (λ r. r ≡ self.now) }
    {
        let exprs = self.get_exprs(alloc)?;
        let inputs = self.get_inputs_vec(alloc)?;
        self.with_exprs_and_input(alloc, exprs, inputs)
    }
}
