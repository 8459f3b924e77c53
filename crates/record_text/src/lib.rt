//! Records of commits, and their text.
//!
//! `write_record` gives the text of a record, and `read_record` ensures exactly the record that a text
//! is, or that it is none: there is one spelling, byte for byte as it is written, and the triples of
//! each list ascend. `a_text_is_one_record` is the law that no text is of two records.
//!
//! Storey: texts.
#![tactic(auto)]

mod laws;
mod lines;
mod reading;
mod record;
mod writing;

pub use laws::a_text_is_one_record;
pub use reading::{TextFault, read_record};
pub use record::Record;
pub use writing::write_record;
