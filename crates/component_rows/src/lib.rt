//! What the components of SHACL Core share: the site at which one is asked, and the results that it gives there, made of the
//! numbers of terms.
//!
//! A component tells the value nodes that it refuses by a `ValueTest`, or by an answer to each of them;
//! `failing` and `refused` list exactly one result about each, in the order of results. The definitions say when a list of
//! results is what a component gives.
//!
//! Storey: validation.
#![tactic(auto)]

mod answered;
mod bound;
mod result;
mod site;
mod value_test;
mod yes;

pub use answered::{about_each, is_among, refused};
pub use bound::{End, counted, is_wrong};
pub use result::{named, row_about, row_alone, row_beside};
pub use site::Site;
pub use value_test::{ValueTest, failing};
pub use yes::{count_all, count_yes};
