//! Shapes as they are compiled.
use crate::{CompiledPattern, Constraint, Target};
use collections::Sequence;
use path_ast::Path;
use rdf_model::Term;

/// A shape (SHACL section 2), over terms or numbers of terms. Other shapes are named by their places in the list of all
/// shapes.
#[derive(Debug, Drop)]
pub struct Shape<T: Ord> {
    /// The node of the shapes graph that is the shape.
    pub node: T,
    /// The path of a property shape; a node shape has none. Of a deactivated shape's path only a predicate is kept, for which
    /// closed shapes ask (section 4.8.1).
    pub path: Option<Path<T>>,
    /// Whether its sh:deactivated is true (section 2.1.6).
    pub is_deactivated: bool,
    /// Its sh:severity, if it declares one (section 2.1.4).
    pub severity: Option<T>,
    /// Its sh:message values, in the order of terms (section 2.1.5).
    pub messages: Sequence<T>,
    pub targets: Sequence<Target<T>>,
    pub constraints: Sequence<Constraint<T>>,
    /// Its sh:pattern, if it has one (section 4.4.3).
    pub pattern: Option<CompiledPattern<T>>,
    /// Its sh:flags, if it has some (section 4.4.3).
    pub flags: Option<T>,
    /// The property shapes that are values of its sh:property (section 4.7.2).
    pub properties: Sequence<usize>,
    /// The shape that is its sh:qualifiedValueShape (section 4.7.3).
    pub qualified: Option<usize>,
    /// Its sibling shapes, each at least once (section 4.7.3).
    pub siblings: Sequence<usize>,
    /// The members of its sh:ignoredProperties (section 4.8.1).
    pub ignored: Sequence<T>,
}

/// The shapes of a shapes graph, in the order of their nodes.
#[derive(Debug, Drop)]
pub struct Shapes {
    pub shapes: Sequence<Shape<Term>>,
}
