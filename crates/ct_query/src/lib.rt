//! What a SELECT answers over the rows of its sources: joins, WHERE, ORDER BY and the list of items.
#![tactic(auto)]

mod joins;
mod laws;
mod lists;
mod query;
mod shown;
mod side;
mod sorting;

pub use laws::{
    inner_is_left_paired, one_order, orders_stably, right_mirrors_left, same_pairs, true_keeps_all,
};
pub use query::select;
