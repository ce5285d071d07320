//! Groups of rows with the same keys.
ghost use Rattle.std.specs.Prelude.{◌≡◌, OnErr, OnOk};
ghost use Rattle.plan_builder.specs.Builds.{Adds, grouping, IsBuilt, MayFollow, Stays};

use crate::builder::IRBuilder;
use plan_check::group_schema;
use plan_core::Items;
use plan_expr::ExprIR;
use plan_ir::IR;
use plan_options::GroupbyOptions;
use std::alloc::{AllocError, Global};

impl IRBuilder<'_> {
    /// Puts on the plan a grouping by these keys: a row for each group, with the keys and then what the aggregates are over the
    /// group's rows, the groups in the order of their first rows where `maintain_order` says so. Refuses where memory is short and
    /// where the arena is full.
    pub fn group_by(
        &mut self,
        alloc: Global,
        keys: Items<ExprIR>,
        aggs: Items<ExprIR>,
        maintain_order: bool,
        options: GroupbyOptions,
    ) -> Result<(), AllocError>
        requires built { IsBuilt self.old.lp_arena.now self.old.expr_arena.now self.old.root }
        requires follows { MayFollow self.old.lp_arena.now self.old.expr_arena.now (grouping self.old.lp_arena.now self.old.expr_arena.now self.old.root keys aggs maintain_order options) }
        ensures exprs { self.new.expr_arena ≡ self.old.expr_arena }
        ensures added { OnOk result (Adds self.old.lp_arena.now self.new.lp_arena.now self.new.root (grouping self.old.lp_arena.now self.old.expr_arena.now self.old.root keys aggs maintain_order options)) }
        ensures built { OnOk result (IsBuilt self.new.lp_arena.now self.new.expr_arena.now self.new.root) }
        ensures refused { OnErr result (Stays self.old.lp_arena.now self.new.lp_arena.now self.old.root self.new.root) }
        ensures same_reference { self.new.lp_arena.ghost_name ≡ self.old.lp_arena.ghost_name }
    {
        let columns = self.schema(alloc)?;
        let schema = group_schema(
            alloc,
            keys.as_slice(),
            aggs.as_slice(),
            self.expr_arena,
            &columns,
        )?;
        self.add_alp(IR::GroupBy {
            input: self.root,
            keys,
            aggs,
            schema,
            maintain_order,
            options,
        })
    }
}
