//! The bare count: a plan that tells the number of the rows of files alone becomes a count of these.
ghost use Rattle.std.specs.Prelude.{◌≡◌, ◌<◌, ◌++◌, List, [], ◌∷◌, All, IfErr, IfNone, IfOk, IfSome, None, OnErr, OnOk, Some, is_some, length, option_map, slice_get, slice_set};
ghost use Rattle.plan_core.specs.declared.arena.Node.{Node as NodeType};
ghost use Rattle.plan_core.specs.declared.error.PolarsError.TheVariants.{OutOfMemory};
ghost use Rattle.plan_tree.specs.Stands.{Trees, StandsOnce};
ghost use Rattle.plan_expr.specs.declared.aexpr.AExpr.{AExpr as AExprType};
ghost use Rattle.plan_expr.specs.Exprs.{all_named_at};
ghost use Rattle.plan_expr.specs.Operands.{IsExpr};
ghost use Rattle.plan_frame.specs.ExprLists.{counts_rows as are_count};
ghost use Rattle.plan_ir.specs.declared.functions.FunctionIR.TheVariants.{FastCount};
ghost use Rattle.plan_ir.specs.declared.ir.IR.{IR as IRType};
ghost use Rattle.plan_ir.specs.declared.ir.IR.TheVariants.{DataFrameScan, MapFunction};
ghost use Rattle.plan_ir.specs.Parts.{IsPlan, StandsPlan, plan_shape};
ghost use Rattle.plan_meaning.specs.Caches.{AreShared};
ghost use Rattle.plan_meaning.specs.PlanAt.{plan_at};
ghost use Rattle.plan_meaning.specs.Relating.{Refines};
ghost use Rattle.plan_meaning.specs.Steps.{IsValid};
ghost use Rattle.plan_pass_laws.specs.Becoming.{Becomes};
ghost use Rattle.plan_order_laws.specs.Counted.{alias_of as alias_in, as_one, count_alias, count_of as counted_scan, countable, counted, counted_scans};

use crate::scans::add_scans;
use crate::together::together;
use plan_core::{Arena, Node, PlSmallStr, PolarsResult, Schema, TryClone};
use plan_expr::{AExpr, ExprIR, OutputName};
use plan_frame::counts_rows;
use plan_ir::{FunctionIR, IR};
use plan_scan::{FileScan, ScanSources};
use std::alloc::{AllocError, Global};

/// The scans of the plan at a number as one, if it has only scans, in unions of them, of one format, and all their sources are paths or
/// all are buffers. Refuses for want of memory alone.
fn scans_at(
    alloc: Global,
    node: Node,
    lp: &Arena<IR>,
) -> Result<Option<(ScanSources, FileScan)>, AllocError>
    requires { (t : Trees IRType) × StandsOnce plan_shape lp.now (node ∷ []) t }
    ensures { IfOk result (λ made. (ex : List AExprType) → made ≡ as_one (counted_scans (plan_at lp.now ex node))) }
{
    let mut found = Vec::new(alloc);
    if !add_scans(node, lp, &mut found)? {
        return Ok(None);
    }
    together(alloc, found.as_slice())
}

/// The alias under which an expression is put out, if it is. Refuses for want of memory alone.
fn alias_of(alloc: Global, expr: &ExprIR) -> Result<Option<PlSmallStr>, AllocError>
    ensures { IfOk result (λ alias. alias ≡ alias_in expr.now.output_name) }
{
    match expr.output_name_inner() {
        OutputName::Alias(name) => Ok(Some(name.try_clone(alloc)?)),
        _ => Ok(None),
    }
}

/// The count that a selection of an expression over a plan is, if it tells the number of rows that can be counted, and nothing else.
/// Refuses for want of memory alone.
fn count_over(
    alloc: Global,
    input: Node,
    expr: &ExprIR,
    lp: &Arena<IR>,
) -> Result<Option<FunctionIR>, AllocError>
    requires { (t : Trees IRType) × StandsOnce plan_shape lp.now (input ∷ []) t }
    ensures { IfOk result (λ made. (ex : List AExprType) → made ≡ option_map (λ x. FastCount x.0 x.1 (alias_in expr.now.output_name)) (as_one (counted_scans (plan_at lp.now ex input)))) }
{
    let alias = alias_of(alloc, expr)?;
    match scans_at(alloc, input, lp)? {
        Some((sources, scan_type)) => Ok(Some(FunctionIR::FastCount {
            sources,
            scan_type,
            alias,
        })),
        None => Ok(None),
    }
}

/// The count in the place of the plan at a number, if it tells the number of rows that can be counted, and nothing else. Refuses for
/// want of memory alone.
fn count_of(
    alloc: Global,
    node: Node,
    lp: &Arena<IR>,
    ex: &Arena<AExpr>,
) -> Result<Option<FunctionIR>, AllocError>
    requires { IsPlan lp.now ex.now node }
    ensures { IfOk result (λ made. made ≡ option_map (λ x. FastCount x.0 x.1 (count_alias (plan_at lp.now ex.now node))) (counted_scan (plan_at lp.now ex.now node))) }
{
    match lp.get(node) {
        IR::Select { input, expr, .. } if counts_rows(expr.as_slice(), ex) => {
            match expr.as_slice() {
                [only] => count_over(alloc, *input, only, lp),
                _ => Ok(None),
            }
        }
        _ => Ok(None),
    }
}

/// Adds a frame without columns, and gives its number and the function over it. Refuses for want of memory alone, and then nothing
/// changes.
fn add_empty(
    alloc: Global,
    function: &FunctionIR,
    lp: &mut Arena<IR>,
) -> Result<(Node, IR), AllocError>
    ensures number { IfOk result (λ made. made.0.0 ≡ length lp.old) }
    ensures copied { IfOk result (λ made. made.1 ≡ MapFunction made.0 function.now) }
    ensures added { OnOk result (lp.new ≡ lp.old ++ DataFrameScan None [] None ∷ []) }
    ensures unchanged { OnErr result (lp.new ≡ lp.old) }
{
    let function = function.try_clone(alloc)?;
    let input = lp.add(IR::DataFrameScan {
        df: None,
        schema: Schema::new(alloc),
        output_schema: None,
    })?;
    Ok((input, IR::MapFunction { input, function }))
}

/// Puts a function at `node`, over a frame without columns at a new number, and gives what stands at `node` then. Refuses for want of
/// memory alone, and then nothing changes.
fn put(
    alloc: Global,
    node: Node,
    function: FunctionIR,
    lp: &mut Arena<IR>,
) -> Result<IR, AllocError>
    requires { node.0 < length lp.old }
    ensures placed { IfOk result (λ entry. (m : NodeType) × (m.0 ≡ length lp.old) × (entry ≡ MapFunction m function) × (lp.new ≡ slice_set (lp.old ++ DataFrameScan None [] None ∷ []) node.0 entry)) }
    ensures unchanged { OnErr result (lp.new ≡ lp.old) }
{
    let (input, entry) = add_empty(alloc, &function, lp)?;
    lp.put(node, IR::MapFunction { input, function });
    Ok(entry)
}

/// Puts a count of the rows of files in the place of a plan that tells that alone.
#[derive(Drop)]
pub struct CountStar;

impl CountStar {
    /// The pass.
    pub fn new() -> Self {
        CountStar
    }

    /// Puts a count of all rows of files at `node`, if the plan there tells this number alone: a selection of it over a scan, or over a
    /// union of such scans, projected or not, all of one format and all over paths or all over buffers. The count has the alias of the
    /// selection, and stands over a frame without columns. It is answered too; None exactly where the plan is another one, which then
    /// stays. Refuses for want of memory alone, and then nothing changes.
    pub fn optimize_plan(
        &mut self,
        alloc: Global,
        lp: &mut Arena<IR>,
        ex: &Arena<AExpr>,
        node: Node,
    ) -> PolarsResult<Option<IR>>
        requires plan { IsPlan lp.old ex.now node }
        requires valid { IsValid (plan_at lp.old ex.now node) }
        ensures some { IfOk result (λ answer. is_some answer ≡ countable (plan_at lp.old ex.now node)) }
        ensures answered { IfOk result (λ answer. IfSome answer (λ entry. slice_get lp.new node.0 ≡ Some entry)) }
        ensures unanswered { IfOk result (λ answer. IfNone answer (lp.new ≡ lp.old)) }
        ensures counted { OnOk result (plan_at lp.new ex.now node ≡ counted (plan_at lp.old ex.now node)) }
        ensures refines { OnOk result (Refines (plan_at lp.new ex.now node) (plan_at lp.old ex.now node)) }
        ensures shared { OnOk result (AreShared (plan_at lp.old ex.now node) → AreShared (plan_at lp.new ex.now node)) }
        ensures in_place { OnOk result ((t : Trees IRType) (e : Trees AExprType) → StandsPlan lp.old ex.now node t e → Becomes lp.old lp.new ex.now ex.now node t e) }
        ensures is_plan { OnOk result (IsPlan lp.new ex.now node) }
        ensures memory { IfErr result (λ e. e ≡ OutOfMemory) }
        ensures unchanged { OnErr result (lp.new ≡ lp.old) }
    {
        match count_of(alloc, node, lp, ex)? {
            Some(function) => Ok(Some(put(alloc, node, function, lp)?)),
            None => Ok(None),
        }
    }
}
