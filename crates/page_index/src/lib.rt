//! A sorted set of keys in shared pages.
//!
//! A `Pages` is seen by contracts as the list of its keys, in strictly ascending order. Its keys stand
//! in pages of bounded size, all at one depth, which other sets may share: a change copies the pages on
//! one way from the root, and those alone that are shared, so that `share` costs one step and a share
//! keeps its keys whatever is done to its source.
//!
//! Storey: pages.
#![tactic(auto)]

mod iter;
mod levels;
mod pages;

pub use iter::Iter;
pub use pages::Pages;
