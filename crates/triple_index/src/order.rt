//! The orders of an index.

/// An order in which an index keeps its triples.
#[derive(Clone, Copy)]
pub enum Order {
    /// By subject, predicate, object.
    Subjects,
    /// By predicate, subject, object.
    Predicates,
    /// By object, predicate, subject.
    Objects,
}
