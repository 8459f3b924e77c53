//! The data graph of a store: its triples by the numbers of their terms, in shared pages, and the terms with their numbers.
//!
//! Contracts see a `DataGraph` as its triples, ascending, those of its shapes graph, and its terms. It keeps no triple but by
//! number: what it hands out is read as terms, and put in their order. The shapes are bound to the numbers, so that it is
//! validated without numbering anything anew. A change makes another graph, which shares what it leaves, and whose results are
//! those of what the change touches; a check of it tells the looks that it made besides, and threads share out its evaluations.
//! A find and a select look at the triples that an order of the numbers has side by side for its pattern.
//!
//! A `ValidatedGraph` is such a graph with just its results, each with the pair of a shape and a focus node that gives it.
//!
//! Storey: store.
#![tactic(auto)]

mod asked;
mod at_once;
mod by_number;
mod changed;
mod changes;
mod graph;
mod hints;
mod last_changes;
mod looks;
mod numbering;
mod pairs;
mod select;
mod validated;

pub use changes::PairedChanges;
pub use graph::DataGraph;
pub use hints::NumberHints;
pub use validated::ValidatedGraph;
