//! The focus nodes that a shape is evaluated at, and what is found there.
use collections::Sequence;
use shape_eval::Permit;
use shape_model::ResultRow;

/// A focus node with the permit for one evaluation there.
#[derive(Drop)]
pub struct PermittedVisit {
    pub node: u32,
    pub allowed: Permit,
}

/// Visits that one thread makes, one after another.
#[derive(Drop)]
pub struct Share {
    pub visits: Vec<PermittedVisit>,
}

/// A focus node, by its number, with the results of a shape there.
#[derive(Debug, Drop)]
pub struct NodeRows {
    pub node: u32,
    pub rows: Sequence<ResultRow>,
}
