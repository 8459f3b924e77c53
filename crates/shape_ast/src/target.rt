/// A declaration of targets (SHACL section 2.1.3), over terms or numbers of terms.
#[derive(Debug, Drop)]
pub enum Target<T> {
    /// The node itself (section 2.1.3.1).
    Node(T),
    /// The instances of this class (section 2.1.3.2).
    Class(T),
    /// The instances of the shape, which is an implicit class target (section 2.1.3.3).
    ImplicitClass,
    /// The subjects of triples with this predicate (section 2.1.3.4).
    SubjectsOf(T),
    /// The objects of triples with this predicate (section 2.1.3.5).
    ObjectsOf(T),
}
