//! Which kinds of nodes a plan has.
ghost use Rattle.std.specs.Prelude.{◌≡◌, ◌<◌, ◌||◌, false, length, List, [], ◌∷◌, OnErr, OnOk, Some};
ghost use Rattle.plan_core.specs.declared.arena.Node.{Node as NodeType};
ghost use Rattle.plan_tree.specs.Stands.{Trees, StandsOnce};
ghost use Rattle.plan_expr.specs.declared.aexpr.AExpr.{AExpr};
ghost use Rattle.plan_ir.specs.declared.ir.IR.{IR as IRType};
ghost use Rattle.plan_ir.specs.Parts.{plan_shape};
ghost use Rattle.plan_ir.specs.Plans.{bare, op_at, plans_at};
ghost use Rattle.plan_order.specs.Members.{filtered, filters_cross, has_node, has_op, is_cache, is_cross_entry, is_distinct as is_distinct_op, is_filter_on_cross as is_filter_on_cross_op, is_group_by, is_join_or_union, is_sort};

use plan_core::{Arena, Node};
use plan_ir::{ArenaLpIter, IR};
use plan_options::JoinType;
use std::alloc::{AllocError, Global};

/// Whether a node is a join that gives all pairs.
fn is_cross_join(entry: &IR) -> bool
    ensures { result ≡ is_cross_entry (Some entry.now) }
{
    match entry {
        IR::Join { options, .. } => matches!(options.args.how, JoinType::Cross),
        _ => false,
    }
}

/// Whether a node is a filter directly on a join that gives all pairs.
fn is_filter_on_cross(entry: &IR, lp: &Arena<IR>) -> bool
    requires { (i : NodeType) → filtered entry.now ≡ Some i → i.0 < length lp.now }
    ensures { result ≡ filters_cross lp.now entry.now }
{
    match entry {
        IR::Filter { input, .. } => is_cross_join(lp.get(*input)),
        _ => false,
    }
}

/// Whether a node is a join, a union or a concatenation.
fn is_joined(entry: &IR) -> bool
    ensures { (ex : List AExpr) → result ≡ is_join_or_union (op_at ex entry.now) }
{
    matches!(
        entry,
        IR::Join { .. } | IR::Union { .. } | IR::HConcat { .. }
    )
}

/// Whether a node is a cache.
fn is_cached(entry: &IR) -> bool
    ensures { (ex : List AExpr) → result ≡ is_cache (op_at ex entry.now) }
{
    matches!(entry, IR::Cache { .. })
}

/// Whether a node tells rows apart.
fn is_distinct(entry: &IR) -> bool
    ensures { (ex : List AExpr) → result ≡ is_distinct_op (op_at ex entry.now) }
{
    matches!(entry, IR::Distinct { .. })
}

/// Whether a node is a sort.
fn is_sorted(entry: &IR) -> bool
    ensures { (ex : List AExpr) → result ≡ is_sort (op_at ex entry.now) }
{
    matches!(entry, IR::Sort { .. })
}

/// Whether a node is a group-by.
fn is_grouped(entry: &IR) -> bool
    ensures { (ex : List AExpr) → result ≡ is_group_by (op_at ex entry.now) }
{
    matches!(entry, IR::GroupBy { .. })
}

/// Which kinds of nodes were reached.
#[derive(Drop)]
pub struct MemberCollector {
    /// A join, a union or a concatenation.
    pub has_joins_or_unions: bool,
    /// A cache.
    pub has_cache: bool,
    /// A filter directly on a cross join.
    pub has_filter_with_join_input: bool,
    /// Distinct rows.
    pub has_distinct: bool,
    /// A sort.
    pub has_sort: bool,
    /// A group-by.
    pub has_group_by: bool,
}

impl MemberCollector {
    /// Nothing was reached yet.
    pub fn new() -> Self
        ensures { result ≡ record { has_joins_or_unions = false; has_cache = false; has_filter_with_join_input = false; has_distinct = false; has_sort = false; has_group_by = false } }
    {
        MemberCollector {
            has_joins_or_unions: false,
            has_cache: false,
            has_filter_with_join_input: false,
            has_distinct: false,
            has_sort: false,
            has_group_by: false,
        }
    }

    /// Notes a node.
    fn note(&mut self, entry: &IR, lp: &Arena<IR>)
        requires { (i : NodeType) → filtered entry.now ≡ Some i → i.0 < length lp.now }
        ensures joins_or_unions { (ex : List AExpr) → self.new.has_joins_or_unions ≡ (self.old.has_joins_or_unions || is_join_or_union (op_at ex entry.now)) }
        ensures cache { (ex : List AExpr) → self.new.has_cache ≡ (self.old.has_cache || is_cache (op_at ex entry.now)) }
        ensures filter_with_join_input { self.new.has_filter_with_join_input ≡ (self.old.has_filter_with_join_input || filters_cross lp.now entry.now) }
        ensures distinct { (ex : List AExpr) → self.new.has_distinct ≡ (self.old.has_distinct || is_distinct_op (op_at ex entry.now)) }
        ensures sort { (ex : List AExpr) → self.new.has_sort ≡ (self.old.has_sort || is_sort (op_at ex entry.now)) }
        ensures group_by { (ex : List AExpr) → self.new.has_group_by ≡ (self.old.has_group_by || is_group_by (op_at ex entry.now)) }
    {
        self.has_joins_or_unions = self.has_joins_or_unions || is_joined(entry);
        self.has_cache = self.has_cache || is_cached(entry);
        self.has_filter_with_join_input = self.has_filter_with_join_input
            || is_filter_on_cross(entry, lp);
        self.has_distinct = self.has_distinct || is_distinct(entry);
        self.has_sort = self.has_sort || is_sorted(entry);
        self.has_group_by = self.has_group_by || is_grouped(entry);
    }

    /// Walks over the plan at `root`. Each field is true afterwards exactly where it was before, or where such a node is reached.
    /// Refuses for want of memory alone, and then all fields are as they were.
    pub fn collect(&mut self, alloc: Global, root: Node, lp: &Arena<IR>) -> Result<(), AllocError>
        requires { (t : Trees IRType) × StandsOnce plan_shape lp.now (root ∷ []) t }
        ensures joins_or_unions { OnOk result ((ex : List AExpr) → self.new.has_joins_or_unions ≡ (self.old.has_joins_or_unions || has_op is_join_or_union (bare (plans_at lp.now ex (root ∷ []))))) }
        ensures cache { OnOk result ((ex : List AExpr) → self.new.has_cache ≡ (self.old.has_cache || has_op is_cache (bare (plans_at lp.now ex (root ∷ []))))) }
        ensures filter_with_join_input { OnOk result ((ex : List AExpr) → self.new.has_filter_with_join_input ≡ (self.old.has_filter_with_join_input || has_node is_filter_on_cross_op (bare (plans_at lp.now ex (root ∷ []))))) }
        ensures distinct { OnOk result ((ex : List AExpr) → self.new.has_distinct ≡ (self.old.has_distinct || has_op is_distinct_op (bare (plans_at lp.now ex (root ∷ []))))) }
        ensures sort { OnOk result ((ex : List AExpr) → self.new.has_sort ≡ (self.old.has_sort || has_op is_sort (bare (plans_at lp.now ex (root ∷ []))))) }
        ensures group_by { OnOk result ((ex : List AExpr) → self.new.has_group_by ≡ (self.old.has_group_by || has_op is_group_by (bare (plans_at lp.now ex (root ∷ []))))) }
        ensures unchanged { OnErr result (self.new ≡ self.old) }
    {
        for (_, entry) in lp.iter(alloc, root)? {
            self.note(entry, lp);
        }
        Ok(())
    }
}
