//! The expressions of an addition over another, parted by what becomes of them.
ghost use Rattle.std.specs.Prelude.{◌≡◌, All, IfOk, OnOk};
ghost use Rattle.plan_core.specs.Names.{AreDistinct};
ghost use Rattle.plan_expr.specs.Operands.{IsExpr};
ghost use Rattle.plan_cluster.specs.ExprNames.{expr_names};
ghost use Rattle.plan_cluster.specs.Parts.{AreParts, no_parts, parts_more, parts_with};

use crate::places::Places;
use crate::staying::which_stay;
use plan_core::{Arena, Items, Names, TryClone};
use plan_expr::{AExpr, ExprIR, output_name};
use std::alloc::{AllocError, Global};

/// The expressions of an addition over another, by what becomes of them.
#[derive(Drop)]
pub struct Parts {
    /// Those that stay.
    pub stays: Items<ExprIR>,
    /// Those that take the place of a lower one.
    pub takes: Items<ExprIR>,
    /// Those that move down behind the lower ones.
    pub moves: Items<ExprIR>,
    /// Whether one of these stands behind one that stays.
    pub from_behind: bool,
}

impl Parts {
    /// No expressions.
    fn new(alloc: Global) -> Self
        ensures { result ≡ no_parts }
    {
        Parts {
            stays: Items::new(alloc),
            takes: Items::new(alloc),
            moves: Items::new(alloc),
            from_behind: false,
        }
    }

    /// Adds an expression that stays or not, and that has the name of a lower one or not. Refuses for want of memory alone.
    fn add(
        &mut self,
        alloc: Global,
        expr: &ExprIR,
        stay: bool,
        take: bool,
    ) -> Result<(), AllocError>
        ensures { OnOk result (self.new ≡ parts_with stay take self.old expr.now) }
    {
        let copy = expr.try_clone(alloc)?;
        if stay {
            return self.stays.push(copy);
        }
        if take {
            return self.takes.push(copy);
        }
        self.from_behind = self.from_behind || self.stays.len() > 0;
        self.moves.push(copy)
    }

    /// Adds expressions, of which these stay. Refuses for want of memory alone.
    fn add_all(
        &mut self,
        alloc: Global,
        exprs: &[ExprIR],
        found: &Names,
        lower: &Places,
    ) -> Result<(), AllocError>
        ensures { OnOk result (self.new ≡ parts_more found.now lower.now self.old exprs.now) }
    {
        for expr in exprs {
            let name = output_name(&expr.output_name);
            self.add(alloc, expr, found.contains(name), lower.contains(name))?;
        }
        Ok(())
    }

    /// The parts of upper expressions over lower ones. Refuses for want of memory alone.
    pub fn of(
        alloc: Global,
        upper: &[ExprIR],
        lower: &[ExprIR],
        ex: &Arena<AExpr>,
    ) -> Result<Self, AllocError>
        requires stand { All (λ e. IsExpr ex.now e.node) upper.now }
        requires upper_once { AreDistinct (expr_names upper.now) }
        requires lower_once { AreDistinct (expr_names lower.now) }
        ensures { IfOk result (λ parts. AreParts ex.now upper.now (expr_names lower.now) parts) }
    {
        let places = Places::of(alloc, lower)?;
        let found = which_stay(alloc, upper, &places, ex)?;
        let mut parts = Parts::new(alloc);
        parts.add_all(alloc, upper, &found, &places)?;
        Ok(parts)
    }
}
