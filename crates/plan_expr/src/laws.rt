//! The law of expressions that are the same, as the contract of a function that does nothing.
ghost use Rattle.std.specs.Prelude.{◌≡◌, ◌↔◌, IsTrue};
ghost use Rattle.plan_expr.specs.Exprs.{Expr};
ghost use Rattle.plan_expr.specs.Same.{same_tree};

/// Two expressions are the same tree just where they are equal.
pub fn same_trees_are_equal()
    ensures { (x y : Expr) → IsTrue (same_tree x y) ↔ (x ≡ y) }
{}
