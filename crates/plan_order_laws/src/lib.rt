//! Laws of frames whose rows stand in another order.
#![tactic(auto)]

pub mod cache_laws;
pub mod count_laws;
pub mod demand_laws;
pub mod row_expr_laws;
pub mod row_laws;
