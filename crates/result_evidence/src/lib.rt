//! Evidence of validation results: which shape gives a result at which focus node, and all triples of the data graph that were
//! looked at.
//!
//! `evidence` ensures exactly the text of a result's block: the least shape and focus node that give it, the looks of that
//! shape at that node, ascending, and under each just the triples of the graph that match it. By these looks alone the result
//! can be found again. `aimed_rows` ensures all results of a graph with each shape and focus node that give them, in order, and
//! `evidence_at` the same text where the least of these are known.
//!
//! `evidence` is for callers that have a result and no list of all: the program has the list, and calls `evidence_at`.
//!
//! Storey: validation.
#![tactic(auto)]

mod aimed_row;
mod aims;
mod evidence_text;
mod gathering;
mod looks;
mod numbered_data;
mod shown;
mod triples;

pub use aimed_row::AimedRow;
pub use evidence_text::{evidence, evidence_at};
pub use gathering::aimed_rows;
pub use looks::listed_looks;
pub use numbered_data::NumberedData;
pub use triples::triples_under;
