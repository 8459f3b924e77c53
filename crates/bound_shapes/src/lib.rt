//! A shapes graph with its shapes by the numbers of their terms, and the plans by which changes are checked.
//!
//! Contracts see a `BoundShapes` as its graph and its planned shapes. They are made once, and stay those of the graph where
//! more terms are named behind the others: so a store binds its shapes when they are staged, and no commit after that pays
//! for their size.
//!
//! Storey: validation.
#![tactic(auto)]

mod bound;

pub use bound::BoundShapes;
