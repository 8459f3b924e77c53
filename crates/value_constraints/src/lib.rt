//! Constraint components of SHACL Core that look at each value node by itself or at the set of them: class, datatype,
//! node kind, counts, ranges, closed, has-value and in (SHACL sections 4.1 to 4.3 and 4.8).
//!
//! Each call lists exactly the results that the definition of its component gives for one value of the
//! parameter; so none is missing, and none is there that shouldn't be.
//!
//! Storey: validation.
#![tactic(auto)]

mod closed_shape;
mod count;
mod kind;
mod literal_type;
mod range;
mod set;

pub use closed_shape::closed;
pub use count::{max_count, min_count};
pub use kind::node_kind;
pub use literal_type::datatype;
pub use range::{max_exclusive, max_inclusive, min_exclusive, min_inclusive};
pub use set::{class, has_value, in_list};
