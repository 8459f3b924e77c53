//! The results of a whole graph, whose evaluations threads share out among each other.
//!
//! `listing_by_threads` ensures exactly the listing of a data graph by numbers under a shapes graph, as
//! `parallel_validate::listing_over` does, and `rows_by_node` exactly the results of a shape at each of some nodes: which
//! threads evaluated what makes no difference.
//!
//! Storey: validation.
#![tactic(auto)]

mod listing;
mod nodes;
mod shapes;
pub mod visit;

pub use listing::listing_by_threads;
pub use nodes::rows_by_node;
pub use visit::NodeRows;
