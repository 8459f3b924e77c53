//! Values of typed literals by their lexical forms, and the order of those values.
//!
//! `value` gives the value of each form that XML Schema Datatypes 1.1 has for strings, booleans, decimals,
//! integers, dateTimes and dates, and `profile` names the literals that the product has no place for;
//! no literal of those has a value here. `less` and `less_or_equal` compare by value as SPARQL 1.1 does,
//! exactly as `specs/Order.antt` says. No call takes memory.
//!
//! Storey: terms.
#![tactic(auto)]

mod datatype;
mod date_time;
mod digits;
mod laws;
mod literal_value;
mod numeral;
mod order;
mod read;
mod text;

pub use laws::{
    booleans_are_of_their_pattern, day_ends_at_next, days_follow, decimals_are_of_their_pattern,
    integers_are_of_their_pattern, less_is_irreflexive, less_is_transitive,
    less_or_equal_is_either, less_or_equal_is_not_greater, none_together,
};
pub use literal_value::{Characters, Instant, Lexical, LiteralValue};
pub use order::{less, less_or_equal};
pub use read::{profile, value};
pub use text::{char_len, lang_matches, str};
