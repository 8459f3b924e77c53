//! The targets of a shape (SHACL section 2.1.3).
//!
//! `targets` ensures exactly the nodes that are targets, each once, ascending; `is_target` whether a node
//! is one, with exactly the looks that decide it. Both are in the words of the definition of targets, for each
//! shapes graph that the bound shapes stand for.
//!
//! Storey: validation.
#![tactic(auto)]

mod listing;
mod shapes;
mod testing;

pub use listing::subjects_of;
pub use shapes::{is_target, targets};
