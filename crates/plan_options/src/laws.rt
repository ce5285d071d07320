//! Laws of options, and of schemas that are put together, as the contracts of functions that do nothing.
ghost use Rattle.std.specs.Prelude.{◌≡◌, ℕ, List};
ghost use Rattle.plan_core.specs.declared.options.ProjectionOptions.{ProjectionOptions};
ghost use Rattle.plan_core.specs.Columns.{Columns};
ghost use Rattle.plan_core.specs.Options.{merged};
ghost use Rattle.plan_options.specs.Schemas.{RepeatsFirst};

/// It doesn't matter which of two options is merged with the other.
pub fn merge_options_is_commutative()
    ensures { (o p : ProjectionOptions) → merged o p ≡ merged p o }
{}

/// It doesn't matter which two of three options are merged first.
pub fn merge_options_is_associative()
    ensures { (o p q : ProjectionOptions) → merged (merged o p) q ≡ merged o (merged p q) }
{}

/// Options merged with themselves are the same.
pub fn merge_options_is_idempotent()
    ensures { (o : ProjectionOptions) → merged o o ≡ o }
{}

/// Only one schema is the first that repeats a name.
pub fn one_schema_repeats_first()
    ensures { (schemas : List Columns) (i j : ℕ) → RepeatsFirst schemas i → RepeatsFirst schemas j → i ≡ j }
{}
