//! Columns that expressions make, alone or beside those that there are.
ghost use Rattle.std.specs.Prelude.{◌≡◌, [], All, IfOk, IsOk, map, OnErr, OnOk};
ghost use Rattle.plan_expr.specs.Operands.{IsExpr};
ghost use Rattle.plan_builder.specs.Builds.{addition, Adds, IsBuilt, MayFollow, own_expr, selection, Stays};

use crate::builder::IRBuilder;
use plan_check_parts::made_schema;
use plan_core::{Arena, Items, Node, ProjectionOptions, Schema, TryClone};
use plan_expr::{AExpr, ExprIR};
use plan_ir::IR;
use std::alloc::{AllocError, Global};

/// The expressions at these numbers, each under the name that it gives itself. Refuses where memory is short and where one of
/// them gives itself none.
fn own_exprs(alloc: Global, nodes: &[Node], ex: &Arena<AExpr>) -> Result<Items<ExprIR>, AllocError>
    requires { All (IsExpr ex.now) nodes.now }
    ensures { IfOk result (λ exprs. exprs ≡ map (own_expr ex.now) nodes.now) }
{
    let mut exprs = Items::new(alloc);
    for node in nodes {
        match ExprIR::from_node(alloc, *node, ex) {
            Ok(expr) => exprs.push(expr)?,
            Err(_) => return Err(AllocError),
        }
    }
    Ok(exprs)
}

impl IRBuilder<'_> {
    /// Puts on the plan a selection of what the expressions make; of none of them nothing. Refuses where memory is short and
    /// where the arena is full.
    pub fn project(
        &mut self,
        alloc: Global,
        expr: Items<ExprIR>,
        options: ProjectionOptions,
    ) -> Result<(), AllocError>
        requires built { IsBuilt self.old.lp_arena.now self.old.expr_arena.now self.old.root }
        requires follows { (expr ≡ [] → ⊥) → MayFollow self.old.lp_arena.now self.old.expr_arena.now (selection self.old.lp_arena.now self.old.expr_arena.now self.old.root expr options) }
        ensures exprs { self.new.expr_arena ≡ self.old.expr_arena }
        ensures added { (expr ≡ [] → ⊥) → OnOk result (Adds self.old.lp_arena.now self.new.lp_arena.now self.new.root (selection self.old.lp_arena.now self.old.expr_arena.now self.old.root expr options)) }
        ensures none { expr ≡ [] → IsOk result × Stays self.old.lp_arena.now self.new.lp_arena.now self.old.root self.new.root }
        ensures built { OnOk result (IsBuilt self.new.lp_arena.now self.new.expr_arena.now self.new.root) }
        ensures refused { OnErr result (Stays self.old.lp_arena.now self.new.lp_arena.now self.old.root self.new.root) }
        ensures same_reference { self.new.lp_arena.ghost_name ≡ self.old.lp_arena.ghost_name }
    {
        if expr.len() == 0 {
            return Ok(());
        }
        let columns = self.schema(alloc)?;
        let base = Schema::new(alloc);
        let schema = made_schema(alloc, base, expr.as_slice(), self.expr_arena, &columns)?;
        self.add_alp(IR::Select {
            input: self.root,
            expr,
            schema,
            options,
        })
    }

    /// Puts on the plan an addition of what the expressions make. Refuses where memory is short and where the arena is full.
    pub fn with_columns(
        &mut self,
        alloc: Global,
        exprs: Items<ExprIR>,
        options: ProjectionOptions,
    ) -> Result<(), AllocError>
        requires built { IsBuilt self.old.lp_arena.now self.old.expr_arena.now self.old.root }
        requires follows { MayFollow self.old.lp_arena.now self.old.expr_arena.now (addition self.old.lp_arena.now self.old.expr_arena.now self.old.root exprs options) }
        ensures exprs { self.new.expr_arena ≡ self.old.expr_arena }
        ensures added { OnOk result (Adds self.old.lp_arena.now self.new.lp_arena.now self.new.root (addition self.old.lp_arena.now self.old.expr_arena.now self.old.root exprs options)) }
        ensures built { OnOk result (IsBuilt self.new.lp_arena.now self.new.expr_arena.now self.new.root) }
        ensures refused { OnErr result (Stays self.old.lp_arena.now self.new.lp_arena.now self.old.root self.new.root) }
        ensures same_reference { self.new.lp_arena.ghost_name ≡ self.old.lp_arena.ghost_name }
    {
        let columns = self.schema(alloc)?;
        let base = columns.try_clone(alloc)?;
        let schema = made_schema(alloc, base, exprs.as_slice(), self.expr_arena, &columns)?;
        self.add_alp(IR::HStack {
            input: self.root,
            exprs,
            schema,
            options,
        })
    }

    /// Puts on the plan an addition of the expressions at these numbers, each under the name that it gives itself. Refuses where
    /// memory is short and where the arena is full.
    pub fn with_columns_simple(
        &mut self,
        alloc: Global,
        exprs: &[Node],
        options: ProjectionOptions,
    ) -> Result<(), AllocError>
        requires built { IsBuilt self.old.lp_arena.now self.old.expr_arena.now self.old.root }
        requires follows { MayFollow self.old.lp_arena.now self.old.expr_arena.now (addition self.old.lp_arena.now self.old.expr_arena.now self.old.root (map (own_expr self.old.expr_arena.now) exprs.now) options) }
        ensures exprs { self.new.expr_arena ≡ self.old.expr_arena }
        ensures added { OnOk result (Adds self.old.lp_arena.now self.new.lp_arena.now self.new.root (addition self.old.lp_arena.now self.old.expr_arena.now self.old.root (map (own_expr self.old.expr_arena.now) exprs.now) options)) }
        ensures built { OnOk result (IsBuilt self.new.lp_arena.now self.new.expr_arena.now self.new.root) }
        ensures refused { OnErr result (Stays self.old.lp_arena.now self.new.lp_arena.now self.old.root self.new.root) }
        ensures same_reference { self.new.lp_arena.ghost_name ≡ self.old.lp_arena.ghost_name }
    {
        let exprs = own_exprs(alloc, exprs, self.expr_arena)?;
        self.with_columns(alloc, exprs, options)
    }
}
