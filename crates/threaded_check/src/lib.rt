//! The check of changes, whose evaluations threads share out among each other.
//!
//! `check_by_threads` finds the pairs of a shape and a node that changes touch, and evaluates just those that are targets
//! after the changes, each once, exactly as `parallel_validate::check` does: which threads evaluated what makes no
//! difference.
//!
//! Storey: validation.
#![tactic(auto)]

mod checking;
mod evaluating;
pub mod pairs;
mod permits;

pub use checking::check_by_threads;
