/// A property path (SHACL section 2.3.1), over terms or numbers of terms.
#[derive(Debug, Drop)]
pub enum Path<P> {
    /// The triples with this predicate (section 2.3.1.1).
    Predicate(P),
    /// The path walked backwards (section 2.3.1.4).
    Inverse(Box<Path<P>>),
    /// The first path, and then each of the others in turn (section 2.3.1.2).
    Sequence(Box<Path<P>>, Vec<Path<P>>),
    /// The first path, or any of the others (section 2.3.1.3).
    Alternative(Box<Path<P>>, Vec<Path<P>>),
    /// The path any number of times (section 2.3.1.5).
    ZeroOrMore(Box<Path<P>>),
    /// The path once or more often (section 2.3.1.6).
    OneOrMore(Box<Path<P>>),
    /// The path or none (section 2.3.1.7).
    ZeroOrOne(Box<Path<P>>),
}
