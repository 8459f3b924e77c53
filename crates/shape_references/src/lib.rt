//! What references between shapes rest on: chains of them, and the siblings of property shapes (SHACL sections 3.4.3
//! and 4.7.3).
//!
//! `least_on_loop` takes an ascending graph whose triples are references, and ensures exactly the least node from
//! which a chain leads to itself, or that there is none. Ranks show of the others that none leads to them, so that
//! one node is searched; they are found by numbers of the nodes. `nodes_with_chain` ensures as exactly the nodes from which a chain of so many references
//! leads, and `least_with_chain` the least of them. `push_siblings` ensures exactly a shape's siblings.
//!
//! References may stand in bundles, so that those of many siblings to each other aren't listed pair by pair:
//! `ReferenceGraph::least_on_loop` and `least_with_chain` ensure the same of those. `push_sibling_bundle` gives the references of
//! all that may have siblings under a parent.
//!
//! Storey: shapes.
#![tactic(auto)]

mod below;
mod bound;
mod bundle;
mod chains;
mod edges;
pub mod laws;
mod leading;
mod loops;
mod marks;
mod names;
mod nodes;
mod parents;
mod ranks;
mod siblings;
mod steps;

pub use bound::ReferenceGraph;
pub use bundle::Bundle;
pub use chains::{least_with_chain, nodes_with_chain};
pub use loops::least_on_loop;
pub use names::{name_at, name_in};
pub use parents::parent_nodes;
pub use siblings::{
    may_share, only_parent, push_sibling_bundle, push_siblings, qualified_under,
    reversed_properties,
};
