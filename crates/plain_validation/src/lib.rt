//! The results of validating a small graph, straight from the triples of the shapes graph, and beside them those by compiled shapes.
//!
//! `listing` is the plain, slow form of a validation by SHACL Core (W3C Recommendation of 20 July
//! 2017): no shape is compiled and no term has a number. It promises the listing that
//! `shape_model` defines, so faster validations are compared with it in tests. It reads all targets, all paths and all components;
//! the caller builds the patterns of the shapes graph, since a text that is no pattern can't be built. `built_patterns` takes each
//! pattern out of the compiled shapes, with the flags of its shape, and shares its regex.
//!
//! `both_listings` reads two texts as N-Triples, and lists the results by compiled shapes and by `listing`. It ensures that each
//! list is the listing of SHACL, so that they are one, and for each fault its cause.
//!
//! Storey: plain twins.
#![tactic(auto)]

mod evaluation;
mod fault;
mod names;
mod patterns;
mod references;
mod results;
mod rows;
mod targets;
mod values;

pub use fault::RowsFault;
pub use names::{class_words, names_of};
pub use patterns::built_patterns;
pub use results::listing;
pub use rows::{BothListings, both_listings, shapes_of, triples_of};
