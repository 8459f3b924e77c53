//! Property paths (SHACL section 2.3.1) as they are compiled, by terms or by the numbers of terms.
//!
//! `specs/PathReadings.antt` says which path of SHACL a compiled one is. `bind_path` ensures a path that reads the same by
//! the numbers of its terms among the names.
//!
//! Storey: shapes.
#![tactic(auto)]

mod binding;
mod path;

pub use binding::bind_path;
pub use path::Path;
