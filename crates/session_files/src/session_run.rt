//! Which session files are to be run, and how.
use collections::Sequence;
use rdf_text::Text;
use store_model::Limits;

/// Session files that are to be run, or the same in the order of a history.
#[derive(Debug, Drop)]
pub struct SessionRun {
    /// How many terms the store names, and how many triples its data graph has, at most.
    pub limits: Limits,
    /// The file of a history, in whose order the sessions are run.
    pub history: Option<Text>,
    /// The session files, of which the first is session 1.
    pub files: Sequence<Text>,
}
