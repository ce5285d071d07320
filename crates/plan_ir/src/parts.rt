//! The parts of nodes: inputs and expressions.
ghost use Rattle.std.specs.Prelude.{◌≡◌, ◌++◌, length, map, take, IfOk, OnOk, OnErr};
ghost use Rattle.plan_ir.specs.Parts.{condition_of, exprs_of, exprs_over, first_input, inputs_of, list_of, listed_exprs_of, over_parts};

use crate::ir::IR;
use crate::split::keep_first;
use plan_core::{Items, Node, TryClone, UnitVec};
use plan_expr::ExprIR;
use plan_join::{JoinOptions, JoinTypeOptionsIR};
use plan_tree::Entry;
use std::alloc::{AllocError, Global};

impl Entry for IR {
    ghost use Rattle.plan_ir.specs.Parts.{inputs_of, is_invalid};

    ghost inputs = { inputs_of };

    ghost bad = { is_invalid };

    fn is_bad(&self) -> bool {
        matches!(self, IR::Invalid)
    }

    /// Appends the numbers of the inputs, from first to last. Refuses for want of memory alone, and then changes nothing.
    fn copy_inputs(&self, out: &mut Items<Node>) -> Result<(), AllocError>
        ensures appended { OnOk result (out.new ≡ out.old ++ inputs_of self.now) }
        ensures unchanged { OnErr result (out.new ≡ out.old) }
    {
        let held = out.len();
        match self.append_inputs(out) {
            Ok(()) => Ok(()),
            Err(error) => {
                keep_first(out, held);
                Err(error)
            }
        }
    }
}

impl IR {
    /// Appends the numbers of the inputs, from first to last. Refuses for want of memory alone, and may then have appended
    /// some.
    fn append_inputs(&self, out: &mut Items<Node>) -> Result<(), AllocError>
        ensures appended { OnOk result (out.new ≡ out.old ++ inputs_of self.now) }
        ensures front { OnErr result (take (length out.old) out.new ≡ out.old) }
    {
        match self {
            IR::Join {
                input_left,
                input_right,
                ..
            } => {
                out.push(*input_left)?;
                out.push(*input_right)
            }
            IR::Union { inputs, .. } | IR::HConcat { inputs, .. } => {
                append_nodes(inputs.as_slice(), out)
            }
            _ => match self.first_input() {
                Some(input) => out.push(input),
                None => Ok(()),
            },
        }
    }

    /// The number of the first input; None where the node has none, or lists its inputs.
    fn first_input(&self) -> Option<Node>
        ensures { result ≡ first_input self.now }
    {
        match self {
            IR::Slice { input, .. }
            | IR::Filter { input, .. }
            | IR::SimpleProjection { input, .. }
            | IR::Select { input, .. }
            | IR::HStack { input, .. }
            | IR::Sort { input, .. }
            | IR::GroupBy { input, .. }
            | IR::Join {
                input_left: input,
                ..
            }
            | IR::Distinct { input, .. }
            | IR::MapFunction { input, .. }
            | IR::Sink { input, .. }
            | IR::Cache { input, .. } => Some(*input),
            IR::Scan { .. }
            | IR::DataFrameScan { .. }
            | IR::Union { .. }
            | IR::HConcat { .. }
            | IR::Invalid => None,
        }
    }

    /// The expressions, in order: for a filter its predicate, for a scan the predicate that it may have, for a selection
    /// and an addition of columns those that make them, for a sort its keys, for a grouping its keys and then its aggregates,
    /// for a join its left keys, its right keys, and then the condition that it may have. Refuses for want of memory alone.
    pub fn exprs(&self, alloc: Global) -> Result<Items<&ExprIR>, AllocError>
        ensures { IfOk result (λ exprs. map (λ e. e.now) exprs ≡ exprs_of self.now) }
    {
        let mut exprs = self.listed_exprs(alloc)?;
        match self {
            IR::Join { options, .. } => append_condition(options, &mut exprs)?,
            _ => {}
        }
        Ok(exprs)
    }

    /// The expressions, in order, but for the condition of a join. Refuses for want of memory alone.
    fn listed_exprs(&self, alloc: Global) -> Result<Items<&ExprIR>, AllocError>
        ensures { IfOk result (λ exprs. map (λ e. e.now) exprs ≡ listed_exprs_of self.now) }
    {
        let mut exprs = Items::new(alloc);
        self.list_exprs(&mut exprs)?;
        Ok(exprs)
    }

    /// Appends the expressions, in order, but for the condition of a join. Refuses for want of memory alone.
    fn list_exprs<'a>(&'a self, exprs: &mut Items<&'a ExprIR>) -> Result<(), AllocError>
        ensures { OnOk result (map (λ e. e.now) exprs.new ≡ map (λ e. e.now) exprs.old ++ listed_exprs_of self.now) }
    {
        match self {
            IR::Filter { predicate, .. } => exprs.push(predicate),
            IR::Scan { predicate, .. } => match predicate {
                Some(predicate) => exprs.push(predicate),
                None => Ok(()),
            },
            IR::Select { expr: list, .. }
            | IR::HStack { exprs: list, .. }
            | IR::Sort {
                by_column: list,
                ..
            } => append(list.as_slice(), exprs),
            IR::GroupBy {
                keys: first,
                aggs: others,
                ..
            }
            | IR::Join {
                left_on: first,
                right_on: others,
                ..
            } => {
                append(first.as_slice(), exprs)?;
                append(others.as_slice(), exprs)
            }
            IR::Slice { .. }
            | IR::DataFrameScan { .. }
            | IR::SimpleProjection { .. }
            | IR::Distinct { .. }
            | IR::MapFunction { .. }
            | IR::Sink { .. }
            | IR::Union { .. }
            | IR::HConcat { .. }
            | IR::Cache { .. }
            | IR::Invalid => Ok(()),
        }
    }

    /// Appends copies of the expressions, in order; the condition of a join isn't among them. Refuses for want of memory
    /// alone, and then changes nothing.
    pub fn copy_exprs(&self, alloc: Global, out: &mut Items<ExprIR>) -> Result<(), AllocError>
        ensures appended { OnOk result (out.new ≡ out.old ++ listed_exprs_of self.now) }
        ensures unchanged { OnErr result (out.new ≡ out.old) }
    {
        let held = out.len();
        match self.append_exprs(alloc, out) {
            Ok(()) => Ok(()),
            Err(error) => {
                keep_first(out, held);
                Err(error)
            }
        }
    }

    /// Appends copies of the expressions, in order; the condition of a join isn't among them. Refuses for want of memory
    /// alone, and may then have appended some.
    fn append_exprs(&self, alloc: Global, out: &mut Items<ExprIR>) -> Result<(), AllocError>
        ensures appended { OnOk result (out.new ≡ out.old ++ listed_exprs_of self.now) }
        ensures front { OnErr result (take (length out.old) out.new ≡ out.old) }
    {
        let listed = self.listed_exprs(alloc)?;
        append_copies(alloc, listed.as_slice(), out)
    }

    /// Copies of the expressions, in order; the condition of a join isn't among them. Refuses for want of memory alone.
    pub fn get_exprs(&self, alloc: Global) -> Result<Items<ExprIR>, AllocError>
        ensures { IfOk result (λ exprs. exprs ≡ listed_exprs_of self.now) }
    {
        let mut copies = Items::new(alloc);
        self.copy_exprs(alloc, &mut copies)?;
        Ok(copies)
    }

    /// The numbers of the inputs, from first to last. Refuses for want of memory alone.
    pub fn get_inputs_vec(&self, alloc: Global) -> Result<Items<Node>, AllocError>
        ensures { IfOk result (λ inputs. inputs ≡ inputs_of self.now) }
    {
        let mut inputs = Items::new(alloc);
        self.copy_inputs(&mut inputs)?;
        Ok(inputs)
    }

    /// The numbers of the inputs, from first to last; one alone takes no memory. Refuses for want of memory alone.
    pub fn get_inputs(&self, alloc: Global) -> Result<UnitVec<Node>, AllocError>
        ensures { IfOk result (λ inputs. inputs ≡ inputs_of self.now) }
    {
        let mut inputs = UnitVec::new(alloc);
        self.push_inputs(&mut inputs)?;
        Ok(inputs)
    }

    /// Appends the numbers of the inputs, from first to last. Refuses for want of memory alone.
    fn push_inputs(&self, out: &mut UnitVec<Node>) -> Result<(), AllocError>
        ensures { OnOk result (out.new ≡ out.old ++ inputs_of self.now) }
    {
        match self {
            IR::Join {
                input_left,
                input_right,
                ..
            } => {
                out.push(*input_left)?;
                out.push(*input_right)
            }
            IR::Union { inputs, .. } | IR::HConcat { inputs, .. } => {
                push_nodes(inputs.as_slice(), out)
            }
            _ => match self.first_input() {
                Some(input) => out.push(input),
                None => Ok(()),
            },
        }
    }

    /// A copy with other expressions, over other inputs: as many of each as `get_exprs` and `get_inputs_vec` give, but that a
    /// sort keeps its own keys. Its other fields are as they were; with its own expressions and inputs it is the same node.
    /// Refuses for want of memory alone.
    pub fn with_exprs_and_input(
        &self,
        alloc: Global,
        exprs: Items<ExprIR>,
        inputs: Items<Node>,
    ) -> Result<IR, AllocError>
        requires exprs_fit { length exprs ≡ length (listed_exprs_of self.now) }
        requires inputs_fit { length inputs ≡ length (inputs_of self.now) }
        ensures inputs { IfOk result (λ node. inputs_of node ≡ inputs) }
        ensures node { IfOk result (λ node. node ≡ over_parts self.now (exprs_over self.now exprs) inputs) }
        ensures own { exprs ≡ listed_exprs_of self.now → inputs ≡ inputs_of self.now → IfOk result (λ node. node ≡ self.now) }
    {
        let exprs = self.exprs_over(alloc, exprs)?;
        self.over(alloc, exprs, inputs)
    }

    /// The expressions that a copy has: a sort keeps its own keys, a join its condition behind these, and any other node takes
    /// these.
    fn exprs_over(&self, alloc: Global, exprs: Items<ExprIR>) -> Result<Items<ExprIR>, AllocError>
        ensures { IfOk result (λ kept. kept ≡ exprs_over self.now exprs) }
    {
        match self {
            IR::Sort { by_column, .. } => by_column.try_clone(alloc),
            IR::Join { options, .. } => with_condition(alloc, exprs, options),
            _ => Ok(exprs),
        }
    }
}

/// Appends numbers, in order. Refuses for want of memory alone, and may then have appended some.
fn append_nodes(list: &[Node], out: &mut Items<Node>) -> Result<(), AllocError>
    ensures appended { OnOk result (out.new ≡ out.old ++ list.now) }
    ensures front { OnErr result (take (length out.old) out.new ≡ out.old) }
{
    for input in list {
        out.push(*input)?;
    }
    Ok(())
}

/// Appends numbers, in order. Refuses for want of memory alone.
fn push_nodes(list: &[Node], out: &mut UnitVec<Node>) -> Result<(), AllocError>
    ensures { OnOk result (out.new ≡ out.old ++ list.now) }
{
    for input in list {
        out.push(*input)?;
    }
    Ok(())
}

/// Appends expressions, in order.
fn append<'a>(list: &'a [ExprIR], exprs: &mut Items<&'a ExprIR>) -> Result<(), AllocError>
    ensures { OnOk result (map (λ e. e.now) exprs.new ≡ map (λ e. e.now) exprs.old ++ list.now) }
{
    for expr in list {
        exprs.push(expr)?;
    }
    Ok(())
}

/// Appends copies of expressions, in order. Refuses for want of memory alone, and may then have appended some.
fn append_copies(alloc: Global, list: &[&ExprIR], out: &mut Items<ExprIR>) -> Result<(), AllocError>
    ensures appended { OnOk result (out.new ≡ out.old ++ map (λ e. e.now) list.now) }
    ensures front { OnErr result (take (length out.old) out.new ≡ out.old) }
{
    for expr in list {
        out.push(expr.try_clone(alloc)?)?;
    }
    Ok(())
}

/// Appends the condition of a join, if it has one.
fn append_condition<'a>(
    options: &'a JoinOptions,
    exprs: &mut Items<&'a ExprIR>,
) -> Result<(), AllocError>
    ensures { OnOk result (map (λ e. e.now) exprs.new ≡ map (λ e. e.now) exprs.old ++ list_of (condition_of options.now)) }
{
    if let Some(JoinTypeOptionsIR::Cross { predicate }) = &options.options {
        exprs.push(predicate)?;
    }
    Ok(())
}

/// These expressions, and then the condition of a join, if it has one.
fn with_condition(
    alloc: Global,
    exprs: Items<ExprIR>,
    options: &JoinOptions,
) -> Result<Items<ExprIR>, AllocError>
    ensures { IfOk result (λ all. all ≡ exprs ++ list_of (condition_of options.now)) }
{
    let mut all = exprs;
    if let Some(JoinTypeOptionsIR::Cross { predicate }) = &options.options {
        all.push(predicate.try_clone(alloc)?)?;
    }
    Ok(all)
}
