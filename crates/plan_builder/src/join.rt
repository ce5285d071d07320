//! Joins with another plan of the same arenas.
ghost use Rattle.std.specs.Prelude.{◌≡◌, IfOk, OnErr, OnOk};
ghost use Rattle.plan_core.specs.Columns.{HasDistinctNames};
ghost use Rattle.plan_join.specs.Naming.{join_columns as columns_of_join, key_columns, LieIn};
ghost use Rattle.plan_builder.specs.Builds.{Adds, IsBuilt, joining, MayFollow, Stays};

use crate::builder::IRBuilder;
use plan_core::{Arena, Items, Node, PolarsError, Schema};
use plan_expr::{AExpr, ExprIR};
use plan_ir::IR;
use plan_join::{JoinOptions, join_schema};
use plan_schema::stored_schema;
use std::alloc::{AllocError, Global};

/// The columns of a join that puts no name out twice. Refuses for want of memory alone.
fn join_columns(
    alloc: Global,
    left: &Schema,
    right: &Schema,
    left_on: &[ExprIR],
    right_on: &[ExprIR],
    options: &JoinOptions,
    ex: &Arena<AExpr>,
) -> Result<Schema, AllocError>
    requires left_keys { LieIn ex.now left_on.now }
    requires right_keys { LieIn ex.now right_on.now }
    requires once { HasDistinctNames (columns_of_join options.now.args (key_columns ex.now left_on.now) (key_columns ex.now right_on.now) left.now right.now) }
    ensures { IfOk result (λ schema. schema ≡ columns_of_join options.now.args (key_columns ex.now left_on.now) (key_columns ex.now right_on.now) left.now right.now) }
{
    match join_schema(alloc, left, right, left_on, right_on, options, ex) {
        Ok(schema) => Ok(schema),
        Err(PolarsError::OutOfMemory) => Err(AllocError),
        Err(_) => unreachable!(),
    }
}

impl IRBuilder<'_> {
    /// Puts on the plan, as the left side, a join with the plan at `other`: rows of both sides side by side, paired by the keys of
    /// each side or under a condition, as the options say. Refuses where memory is short and where the arena is full.
    pub fn join(
        &mut self,
        alloc: Global,
        other: Node,
        left_on: Items<ExprIR>,
        right_on: Items<ExprIR>,
        options: JoinOptions,
    ) -> Result<(), AllocError>
        requires built { IsBuilt self.old.lp_arena.now self.old.expr_arena.now self.old.root }
        requires beside { IsBuilt self.old.lp_arena.now self.old.expr_arena.now other }
        requires follows { MayFollow self.old.lp_arena.now self.old.expr_arena.now (joining self.old.lp_arena.now self.old.expr_arena.now self.old.root other left_on right_on options) }
        ensures exprs { self.new.expr_arena ≡ self.old.expr_arena }
        ensures added { OnOk result (Adds self.old.lp_arena.now self.new.lp_arena.now self.new.root (joining self.old.lp_arena.now self.old.expr_arena.now self.old.root other left_on right_on options)) }
        ensures built { OnOk result (IsBuilt self.new.lp_arena.now self.new.expr_arena.now self.new.root) }
        ensures refused { OnErr result (Stays self.old.lp_arena.now self.new.lp_arena.now self.old.root self.new.root) }
        ensures same_reference { self.new.lp_arena.ghost_name ≡ self.old.lp_arena.ghost_name }
    {
        let left = self.schema(alloc)?;
        let right = stored_schema(alloc, other, self.lp_arena)?.into_schema(alloc)?;
        let schema = join_columns(
            alloc,
            &left,
            &right,
            left_on.as_slice(),
            right_on.as_slice(),
            &options,
            self.expr_arena,
        )?;
        self.add_alp(IR::Join {
            input_left: self.root,
            input_right: other,
            schema,
            left_on,
            right_on,
            options,
        })
    }
}
