//! Pages of keys, one below another.
//!
//! A `Page` is seen by contracts as all its keys, in strictly ascending order, with its height over the
//! leaves and its width. The pages right below one are of one height, and neither too narrow nor too wide,
//! so a way down is short; a key is put in or taken out on one such way, and others may share the pages:
//! a change copies those on its way, and those alone that are shared.
//!
//! Storey: pages.
#![tactic(auto)]

mod insertion;
mod leaf;
mod page;
mod parts;
mod place;
mod reading;
mod removal;
mod run;

pub use page::{Entry, MOST, Page};
pub use parts::{inner_entry, leaf_entry, over_halves};
