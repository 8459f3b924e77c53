//! To what the shapes of a shapes graph refer, and how large they are.
//!
//! `survey_of` asks once what several rules ask of a graph, and ensures each answer exactly. `least_recursive` and
//! `least_with_long_chain` ensure exactly the least shape from which references lead back to it, or on too far. Sizes (rule
//! 42), looks (rule 40) and depths of paths (rule 41) are counted exactly as far as their limits, each node once.
//!
//! Storey: shapes.
#![tactic(auto)]

mod counted;
pub mod laws;
pub mod looks;
pub mod path_looks;
pub mod path_steps;
mod referring;
pub mod sizes;
mod stand_ins;
mod survey;

pub use referring::{least_recursive, least_with_long_chain, references};
pub use survey::{Survey, survey_of};
