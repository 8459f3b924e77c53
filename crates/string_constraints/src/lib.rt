//! Constraint components of SHACL Core that look at the text of each value node, or at its language tag: min-length, max-length,
//! pattern, language-in and unique-lang (SHACL section 4.4).
//!
//! Each call lists exactly the results that the definition of its component gives for one value of the
//! parameter.
//!
//! Storey: validation.
#![tactic(auto)]

mod language;
mod length;
mod matchers;
mod matching;
mod shared_tag;

pub use language::language_in;
pub use length::{max_length, min_length};
pub use matchers::{Matchers, PatternMatcher};
pub use matching::pattern;
pub use shared_tag::unique_lang;
