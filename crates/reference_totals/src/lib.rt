//! Totals over references that may stand several times.
//!
//! Each place has a weight of its own and refers to others. Its total is its weight with the totals of the places that it
//! refers to, each as often as it refers to it. `totals` ensures exactly the total of each place that has one, as far as
//! a limit, and visits each reference about twice, whatever the totals are. A place that leads to itself has none. Each
//! reference is looked up once: after that the places refer to each other by numbers.
//!
//! Storey: shapes.
#![tactic(auto)]

mod below;
pub mod laws;
mod numbers;
mod place;
mod rounds;
mod sums;
mod tables;

pub use place::WeightedPlace;
pub use rounds::totals;
pub use sums::{capped_sum, total_of};
