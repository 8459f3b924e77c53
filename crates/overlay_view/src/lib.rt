//! A set of triples with a net over it.
//!
//! An `Overlay` over a set of triples and a list of changes stands for the set after the changes. It
//! copies nothing of the set: it keeps the triples that the changes add and those that they remove, and
//! answers from both and from the set beneath.
//!
//! Storey: pages.
#![tactic(auto)]

mod kept;
mod overlay;
mod pattern;

pub use overlay::Overlay;
