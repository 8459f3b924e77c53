// What the command is asked.
use rdf_text::Text;

/// The names of the files of the command, and the version that is asked for.
#[derive(Debug, Drop)]
pub struct FollowedFiles {
    /// A log: the image of the records.
    pub log_file: Text,
    /// The numbers of the records that are fed, in their order.
    pub order_file: Text,
    /// The version whose data graph is printed.
    pub version: u64,
}
