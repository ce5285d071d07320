//! The builder: the arenas of a plan, and the number at which the plan stands.
ghost use Rattle.std.specs.Prelude.{◌≡◌, IfOk, Ok, OnErr, OnOk, slice_get, slice_set, Some};
ghost use Rattle.std.specs.Borrow.{sem};
ghost use Rattle.plan_ir.specs.declared.ir.IR.TheVariants.{Invalid};
ghost use Rattle.plan_meaning.specs.Typed.{typed};
ghost use Rattle.plan_builder.specs.Builds.{Adds, columns_at, IsBuilt, MayFollow, Stays};

use plan_core::{Arena, Node, Schema};
use plan_expr::AExpr;
use plan_ir::IR;
use plan_schema::stored_schema;
use std::alloc::{AllocError, Global};

/// A valid plan in two arenas, on which nodes are put.
#[derive(Drop)]
pub struct IRBuilder<'a> {
    pub(crate) root: Node,
    pub(crate) expr_arena: &'a Arena<AExpr>,
    pub(crate) lp_arena: &'a mut Arena<IR>,
}

impl<'a> IRBuilder<'a> {
    ghost use Rattle.plan_builder.specs.Rests.{rests};

    /// A builder on the plan at `root`.
    pub fn new(root: Node, expr_arena: &'a Arena<AExpr>, lp_arena: &'a mut Arena<IR>) -> Self
        ensures root { result.root ≡ root }
        ensures exprs { result.expr_arena.now ≡ expr_arena.now }
        ensures nodes { result.lp_arena.now ≡ lp_arena.old }
        ensures same_reference { result.lp_arena.ghost_name ≡ lp_arena.entry.ghost_name }
    {
        IRBuilder {
            root,
            expr_arena,
            lp_arena,
        }
    }

    /// A builder on a node, which is put last and is valid over what it reaches. Refuses where memory is short and where the
    /// arena is full, and then the arena is as it was.
    pub fn from_lp(
        lp_arena: &'a mut Arena<IR>,
        expr_arena: &'a Arena<AExpr>,
        lp: IR,
    ) -> Result<Self, AllocError>
        requires { MayFollow lp_arena.old expr_arena.now lp }
        ensures* refused { sem 𝓛 (rests lp_arena.entry result) }
        ensures exprs { IfOk result (λ b. b.expr_arena.now ≡ expr_arena.now) }
        ensures added { IfOk result (λ b. Adds lp_arena.old b.lp_arena.now b.root lp) }
        ensures built { IfOk result (λ b. IsBuilt b.lp_arena.now b.expr_arena.now b.root) }
        ensures same_reference { IfOk result (λ b. b.lp_arena.ghost_name ≡ lp_arena.entry.ghost_name) }
    {
        let root = lp_arena.add(lp)?;
        Ok(IRBuilder {
            root,
            expr_arena,
            lp_arena,
        })
    }

    /// Puts a node last, which is valid over what it reaches, and stands on it. Refuses where memory is short and where the
    /// arena is full.
    pub fn add_alp(&mut self, lp: IR) -> Result<(), AllocError>
        requires { MayFollow self.old.lp_arena.now self.old.expr_arena.now lp }
        ensures exprs { self.new.expr_arena ≡ self.old.expr_arena }
        ensures added { OnOk result (Adds self.old.lp_arena.now self.new.lp_arena.now self.new.root lp) }
        ensures built { OnOk result (IsBuilt self.new.lp_arena.now self.new.expr_arena.now self.new.root) }
        ensures refused { OnErr result (Stays self.old.lp_arena.now self.new.lp_arena.now self.old.root self.new.root) }
        ensures same_reference { self.new.lp_arena.ghost_name ≡ self.old.lp_arena.ghost_name }
    {
        self.root = self.lp_arena.add(lp)?;
        Ok(())
    }

    /// The number at which the plan stands.
    pub fn node(&self) -> Node
        ensures { result ≡ self.now.root }
    {
        self.root
    }

    /// Takes the node at which the plan stands, and leaves `Invalid` there.
    pub fn build(self) -> IR
        requires { IsBuilt self.lp_arena.now self.expr_arena.now self.root }
        ensures taken { slice_get self.entry.lp_arena.now self.entry.root.0 ≡ Some result }
        ensures left { self.exit.1.1.0.now ≡ slice_set self.entry.lp_arena.now self.entry.root.0 Invalid }
    {
        let IRBuilder { root, lp_arena, .. } = self;
        lp_arena.replace(root, IR::Invalid)
    }

    /// The columns of the plan, as the checks find them. Refuses for want of memory alone.
    pub fn schema(&self, alloc: Global) -> Result<Schema, AllocError>
        requires { IsBuilt self.now.lp_arena.now self.now.expr_arena.now self.now.root }
        ensures columns { IfOk result (λ columns. columns ≡ columns_at self.now.lp_arena.now self.now.expr_arena.now self.now.root) }
        ensures typed { IfOk result (λ columns. typed self.now.lp_arena.now self.now.expr_arena.now self.now.root ≡ Ok columns) }
    {
        stored_schema(alloc, self.root, self.lp_arena)?.into_schema(alloc)
    }
}
