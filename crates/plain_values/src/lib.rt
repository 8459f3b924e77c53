//! The results of the constraint components of SHACL Core that ask of each value node alone, or count the value nodes, found term by
//! term (SHACL section 4).
//!
//! A `PlainSite` has all that components read: both graphs as lists of triples, the shape, the focus node and its value nodes, and the
//! results of the shapes that the shape refers to. Each call ensures exactly the results of its component there, for one value
//! of the parameter. The patterns of the shapes graph are built by the caller, each under the flags of its shape; `pattern_rows`
//! asks those that the shape has.
//!
//! Storey: plain twins.
#![tactic(auto)]

mod built;
mod by_list;
mod by_term;
mod logic;
mod matching;
mod others;
mod rows;
mod site;

pub use built::BuiltPattern;
pub use by_list::{list_rows, tag};
pub use by_term::{is_at_most, is_fewer, is_less, is_more, term_rows};
pub use logic::{Demand, conforms, is_unmet};
pub use matching::pattern_rows;
pub use others::{
    Outside, class_rows, disjoint_rows, equals_rows, has_value_rows, max_count_rows,
    min_count_rows, node_rows, not_rows, row_if,
};
pub use rows::{row_about, row_alone, row_beside, rows_about, rows_where};
pub use site::{PlainSite, ToldRow};
