//! Shapes of SHACL Core as they are compiled, with all of its constraint components, by terms or by the numbers of terms.
//!
//! `specs/Standing.antt` says when `Shapes` stand for a shapes graph: what each says is, for a validation, what the
//! triples say of its node. `bind` ensures shapes that read the same by the numbers of their terms among the names. The
//! components of constraints, the rows of results and the paths are named here for the crates above.
//!
//! Storey: shapes.
#![tactic(auto)]

mod bound;
mod component;
mod constraint;
mod members;
mod parts;
mod pattern;
mod shape;
mod target;

pub use bound::{Bound, bind};
pub use component::{ListComponent, ShapeComponent, ShapesComponent, TermComponent};
pub use constraint::Constraint;
pub use members::Members;
pub use path_ast::{Path, bind_path};
pub use pattern::CompiledPattern;
pub use shape::{Shape, Shapes};
pub use shape_model::{Component, ResultRow};
pub use target::Target;
