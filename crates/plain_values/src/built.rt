//! What was built of the text of a pattern.
use rdf_model::Term;
use rdf_text::Text;
use regex::Regex;
use std::sync::Arc;

/// What was built of the text of a term under flags.
#[derive(Debug, Drop)]
pub struct BuiltPattern {
    /// The value of sh:pattern.
    pub parameter: Term,
    /// The text of the flags; it is empty where a shape has none.
    pub flags: Text,
    pub regex: Arc<Regex>,
}
