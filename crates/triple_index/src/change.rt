//! Changes by the numbers of terms.
use rdf_model::Ids;

/// A change of one triple, by the numbers of its terms.
#[derive(Clone, Copy, Debug, PartialEq, Eq)]
pub enum NumberedChange {
    Add(Ids),
    Remove(Ids),
}
