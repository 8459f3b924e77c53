//! Constraint components of SHACL Core that count value nodes which conform to a shape and to none of its siblings:
//! qualified-min-count and qualified-max-count (SHACL section 4.7.3).
//!
//! Whether each value node conforms to each of those shapes is handed in. Each call lists exactly the results
//! that the definition of its component gives for one value of the parameter.
//!
//! Storey: validation.
#![tactic(auto)]

mod qualified;

pub use qualified::{qualified_max_count, qualified_min_count};
