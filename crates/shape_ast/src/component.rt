//! The components of SHACL Core (section 4) by what a constraint keeps of a value of their parameter.

/// A component of whose parameter a constraint keeps no more than the value.
#[derive(Clone, Copy, Debug)]
pub enum TermComponent {
    Class,
    Datatype,
    NodeKind,
    MinCount,
    MaxCount,
    MinExclusive,
    MinInclusive,
    MaxExclusive,
    MaxInclusive,
    MinLength,
    MaxLength,
    UniqueLang,
    Equals,
    Disjoint,
    LessThan,
    LessThanOrEquals,
    QualifiedMinCount,
    QualifiedMaxCount,
    Closed,
    HasValue,
}

/// A component whose parameter is a list of terms (sections 4.4.4 and 4.8.3).
#[derive(Clone, Copy, Debug)]
pub enum ListComponent {
    LanguageIn,
    In,
}

/// A component whose parameter is a shape (sections 4.6.1 and 4.7.1).
#[derive(Clone, Copy, Debug)]
pub enum ShapeComponent {
    Not,
    Node,
}

/// A component whose parameter is a list of shapes (sections 4.6.2 to 4.6.4).
#[derive(Clone, Copy, Debug)]
pub enum ShapesComponent {
    And,
    Or,
    Xone,
}
