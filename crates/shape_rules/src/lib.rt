//! Which rules of SHACL a shapes graph breaks, by what the properties of its vocabulary ask and what its shapes refer to.
//!
//! `least_broken` ensures exactly the least broken rule, or that none is broken; `least_broken_of` does by what was asked of
//! the graph before. How deep shapes and their paths may be (rule 41), how many looks their results may need (rule 40) and
//! how large they may be (rule 42) is asked where none of the rules 1 to 39 is broken.
//!
//! `least_broken` is for tests: the reader of shapes has the survey at hand, and calls `least_broken_of`.
//!
//! Storey: shapes.
#![tactic(auto)]

pub mod laws;
mod least;
mod limits;
mod passes;
mod rows;
mod rule_row;
mod statement;
mod surveyed;

pub use least::{least_broken, least_broken_of};
pub use rule_row::RuleRow;
