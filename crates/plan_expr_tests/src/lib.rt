//! The tests of plan_expr, plan_join and plan_dsl. They stand apart from these, so that each is proved once, and not with its tests again.
#![tactic(auto)]

#[cfg(test)]
mod boxes;
#[cfg(test)]
mod columns;
#[cfg(test)]
mod exprs;
#[cfg(test)]
mod joins;
mod made;
