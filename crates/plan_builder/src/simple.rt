//! Projections to columns by their names.
ghost use Rattle.std.specs.Prelude.{◌≡◌, [], ◌∷◌, All, IfOk, IsOk, List, map, min, None, OnErr, OnOk, Some};
ghost use Rattle.plan_core.specs.declared.error.PolarsError.TheVariants.{SchemaFieldNotFound};
ghost use Rattle.plan_core.specs.Columns.{Columns};
ghost use Rattle.plan_core.specs.Errors.{item_at};
ghost use Rattle.plan_ir.specs.declared.ir.IR.TheVariants.{SimpleProjection};
ghost use Rattle.plan_meaning.specs.Checks.{each, each_new, is_known};
ghost use Rattle.plan_meaning.specs.Typing.{Says};
ghost use Rattle.plan_builder.specs.Builds.{Adds, columns_at, IsBuilt, Stays};
ghost use Rattle.plan_builder.specs.Picks.{column_at, first_item_fault, IsColumn, name_checks, Picks};

use crate::builder::IRBuilder;
use plan_core::{
    Arena, At, ColumnNode, Items, Node, PlSmallStr, PolarsError, PolarsResult, Schema, TryClone,
};
use plan_expr::{AExpr, column_node_to_name};
use plan_ir::IR;
use std::alloc::{AllocError, Global};

/// The item of this number, for a fault outside plans. A number above 4294967295 is given as 4294967295.
fn item(place: usize) -> At
    ensures { result ≡ item_at (min place 4294967295) }
{
    let place = if place >= 4294967295 {
        4294967295
    } else {
        place as u32
    };
    At { node: None, place }
}

/// Each name is one of the columns, else `SchemaFieldNotFound` at the first that isn't.
fn check_known(schema: &Schema, names: &[PlSmallStr]) -> PolarsResult<()>
    ensures { Says result (first_item_fault (each SchemaFieldNotFound 0 (is_known schema.now) names.now)) }
{
    for (i, name) in names.iter().enumerate() {
        if schema.get(name.as_str()).is_none() {
            return Err(PolarsError::SchemaFieldNotFound(item(i)));
        }
    }
    Ok(())
}

/// The columns of these names, in order, with their types; `Duplicate` at the first name that is one before it.
fn picked(alloc: Global, schema: &Schema, names: &[PlSmallStr]) -> PolarsResult<Schema>
    requires { first_item_fault (each SchemaFieldNotFound 0 (is_known schema.now) names.now) ≡ None }
    ensures picks { IfOk result (Picks schema.now names.now) }
    ensures fault { Says result (first_item_fault (each_new 0 [] names.now)) }
{
    let mut columns = Schema::new(alloc);
    for (i, name) in names.iter().enumerate() {
        if let Some(dtype) = schema.get(name.as_str()) {
            let before = columns.with_column(PlSmallStr::new(alloc, name.as_str())?, *dtype)?;
            if before.is_some() {
                return Err(PolarsError::Duplicate(item(i)));
            }
        }
    }
    Ok(columns)
}

/// The columns of these names, in order, with their types; `SchemaFieldNotFound` at the first name that isn't one of the columns, and
/// then `Duplicate` at the first that is one before it.
#[tactic(auto, using(crate::proofs::Faults::item_append))]
fn columns_of(alloc: Global, schema: &Schema, names: &[PlSmallStr]) -> PolarsResult<Schema>
    ensures picks { IfOk result (Picks schema.now names.now) }
    ensures fault { Says result (first_item_fault (name_checks names.now schema.now)) }
{
    check_known(schema, names)?;
    picked(alloc, schema, names)
}

/// The names of the columns at these numbers, in order.
fn column_names(
    alloc: Global,
    nodes: &[Node],
    ex: &Arena<AExpr>,
) -> Result<Items<PlSmallStr>, AllocError>
    requires { All (IsColumn ex.now) nodes.now }
    ensures { IfOk result (λ names. names ≡ map (column_at ex.now) nodes.now) }
{
    let mut names = Items::new(alloc);
    for node in nodes {
        names.push(column_node_to_name(ColumnNode(*node), ex).try_clone(alloc)?)?;
    }
    Ok(names)
}

impl IRBuilder<'_> {
    /// Puts on the plan a projection to the columns of these names, in order; of none of them nothing. Refuses with
    /// `SchemaFieldNotFound` at the first name that the plan lacks, then with `Duplicate` at the first that is one before it, each
    /// of no node; and where memory is short or the arena is full.
    pub fn project_simple(&mut self, alloc: Global, names: &[PlSmallStr]) -> PolarsResult<()>
        requires { IsBuilt self.old.lp_arena.now self.old.expr_arena.now self.old.root }
        ensures exprs { self.new.expr_arena ≡ self.old.expr_arena }
        ensures added { OnOk result ((names.now ≡ [] → ⊥) → (columns : Columns) × Picks (columns_at self.old.lp_arena.now self.old.expr_arena.now self.old.root) names.now columns × Adds self.old.lp_arena.now self.new.lp_arena.now self.new.root (SimpleProjection self.old.root columns)) }
        ensures none { names.now ≡ [] → IsOk result × Stays self.old.lp_arena.now self.new.lp_arena.now self.old.root self.new.root }
        ensures fault { Says result (first_item_fault (name_checks names.now (columns_at self.old.lp_arena.now self.old.expr_arena.now self.old.root))) }
        ensures built { OnOk result (IsBuilt self.new.lp_arena.now self.new.expr_arena.now self.new.root) }
        ensures refused { OnErr result (Stays self.old.lp_arena.now self.new.lp_arena.now self.old.root self.new.root) }
        ensures same_reference { self.new.lp_arena.ghost_name ≡ self.old.lp_arena.ghost_name }
    {
        if names.is_empty() {
            return Ok(());
        }
        let schema = self.schema(alloc)?;
        let columns = columns_of(alloc, &schema, names)?;
        self.root = self.lp_arena.add(IR::SimpleProjection {
            input: self.root,
            columns,
        })?;
        Ok(())
    }

    /// Puts on the plan a projection to the columns at these numbers, as `project_simple` does to their names, and
    /// refuses as that does.
    pub fn project_simple_nodes(&mut self, alloc: Global, nodes: &[Node]) -> PolarsResult<()>
        requires built { IsBuilt self.old.lp_arena.now self.old.expr_arena.now self.old.root }
        requires columns { All (IsColumn self.old.expr_arena.now) nodes.now }
        ensures exprs { self.new.expr_arena ≡ self.old.expr_arena }
        ensures added { OnOk result ((nodes.now ≡ [] → ⊥) → (columns : Columns) × Picks (columns_at self.old.lp_arena.now self.old.expr_arena.now self.old.root) (map (column_at self.old.expr_arena.now) nodes.now) columns × Adds self.old.lp_arena.now self.new.lp_arena.now self.new.root (SimpleProjection self.old.root columns)) }
        ensures none { nodes.now ≡ [] → IsOk result × Stays self.old.lp_arena.now self.new.lp_arena.now self.old.root self.new.root }
        ensures fault { Says result (first_item_fault (name_checks (map (column_at self.old.expr_arena.now) nodes.now) (columns_at self.old.lp_arena.now self.old.expr_arena.now self.old.root))) }
        ensures built { OnOk result (IsBuilt self.new.lp_arena.now self.new.expr_arena.now self.new.root) }
        ensures refused { OnErr result (Stays self.old.lp_arena.now self.new.lp_arena.now self.old.root self.new.root) }
        ensures same_reference { self.new.lp_arena.ghost_name ≡ self.old.lp_arena.ghost_name }
    {
        if nodes.is_empty() {
            return Ok(());
        }
        let names = column_names(alloc, nodes, self.expr_arena)?;
        self.project_simple(alloc, names.as_slice())
    }
}
