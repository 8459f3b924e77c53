//! A row of looks.
use collections::Sequence;
use path_ast::Path;
use rdf_model::Term;

/// What is asked of a node.
#[derive(Debug, Drop)]
pub enum LookKind {
    /// The triples with the node as subject and this predicate.
    Out(Term),
    /// The triples with this predicate and the node as object.
    In(Term),
    /// All triples with the node as subject.
    OutAny,
}

/// A row of looks: each node to which the way leads from a focus node is asked for triples.
#[derive(Debug, Drop)]
pub struct PlannedLook {
    /// The paths from the focus node to the nodes that are asked, one after another. Where there are none, the focus node
    /// itself is asked.
    pub way: Sequence<Path<Term>>,
    pub kind: LookKind,
}
