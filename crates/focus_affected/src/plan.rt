//! Plans of looks by the numbers of terms.
use collections::Sequence;
use path_ast::Path;

/// What is asked of a node, by the numbers of terms.
#[derive(Clone, Copy, Debug)]
pub enum NumberedKind {
    /// The triples with the node as subject and this predicate.
    Out(u32),
    /// The triples with this predicate and the node as object.
    In(u32),
    /// All triples with the node as subject.
    OutAny,
}

/// A row of looks by the numbers of terms.
#[derive(Debug, Drop)]
pub struct NumberedLook {
    /// The way from the focus node as one path, the sequence of its paths; none where the focus node itself is asked.
    pub way: Option<Path<u32>>,
    pub kind: NumberedKind,
}

/// All rows of looks of a shape with a target declaration.
#[derive(Debug, Drop)]
pub struct ShapePlan {
    /// The shape's place among the compiled shapes.
    pub place: u32,
    /// The number of its node.
    pub node: u32,
    pub looks: Sequence<NumberedLook>,
}
