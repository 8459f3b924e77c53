//! Patterns with variables.

/// A part of a pattern.
#[derive(Debug, Drop)]
pub enum Part<T> {
    /// A variable, by its number: variables are numbered from 0 in the order in which they first appear.
    Variable(u32),
    Constant(T),
}

/// A triple pattern (SPARQL 1.1 Query, section 18.1.5).
#[derive(Debug, Drop)]
pub struct JoinPattern<T> {
    pub subject: Part<T>,
    pub predicate: Part<T>,
    pub object: Part<T>,
}
