//! The names of the files.
use rdf_text::Text;

/// The names of the two files of a validation.
#[derive(Debug, Drop)]
pub struct ValidatedFiles {
    /// The data graph, whose blank nodes are those of session 1.
    pub data_file: Text,
    /// The shapes graph, whose blank nodes are those of session 2.
    pub shapes_file: Text,
}

/// The names of the files of a verification.
#[derive(Debug, Drop)]
pub struct VerifiedFiles {
    /// The files of the validation whose results are shown.
    pub graphs: ValidatedFiles,
    /// The evidence.
    pub evidence_file: Text,
}
