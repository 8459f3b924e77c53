//! References to IRIs, resolved against a base.
//!
//! A reference is split into its components (RFC 3986 section 3) and resolved against a base that
//! has a scheme (section 5.2). A reference that itself has a scheme is kept as it is written.
//! `resolve` ensures that its answer is exactly the one that the algorithm gives, and `laws` has
//! what follows: the components of a text give it back, and each answer has a scheme.
//!
//! As a call of its own `split` is for tests: readers ask for `resolve` and `has_scheme`.
//!
//! Storey: texts.
#![tactic(auto)]

mod components;
mod dot_segments;
pub mod laws;
mod resolution;
mod scheme;

pub use components::{Parts, split};
pub use resolution::resolve;
pub use scheme::has_scheme;
