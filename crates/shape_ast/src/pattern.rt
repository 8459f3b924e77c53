//! The pattern of a shape, built.
use regex::Regex;
use std::sync::Arc;

/// The sh:pattern of a shape (SHACL section 4.4.3), built under the shape's flags.
#[derive(Debug, Drop)]
pub struct CompiledPattern<T> {
    /// The value of sh:pattern.
    pub parameter: T,
    /// What was built of its text.
    pub regex: Arc<Regex>,
}
