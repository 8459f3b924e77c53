//! Constraint components of SHACL Core that combine what other shapes say of value nodes: not, and, or, xone and node
//! (SHACL sections 4.6 and 4.7.1), and property (section 4.7.2).
//!
//! Whether each value node conforms to each of those shapes is handed in; to property, the results that it gives there.
//! Each call lists exactly the results that the definition of its component gives for one value of the parameter.
//!
//! Storey: validation.
#![tactic(auto)]

mod components;
mod demand;
mod properties;

pub use components::{and, node, not, or, xone};
pub use properties::property;
