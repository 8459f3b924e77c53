//! Patterns of joins, each as the codes of its parts.
use bgp_query::{JoinPattern, Part};
use rdf_model::Term;
use std::alloc::{AllocError, Global};

/// A constant of a pattern, by its number.
pub(crate) trait Constant {
    fn numbered(number: u32) -> Self;
}

impl Constant for u32 {
    fn numbered(number: u32) -> u32 {
        number
    }
}

impl Constant for Term {
    fn numbered(number: u32) -> Term {
        Term::Blank { session: 1, number }
    }
}

// A part by its code: below 100 a variable, else the constant that is 100 less.
fn part<T: Constant>(code: u32) -> Part<T> {
    if code < 100 {
        Part::Variable(code)
    } else {
        Part::Constant(T::numbered(code - 100))
    }
}

pub(crate) fn patterns_of<T: Constant + Drop>(
    alloc: Global,
    codes: &[(u32, u32, u32)],
) -> Result<Vec<JoinPattern<T>>, AllocError> {
    let mut patterns = Vec::new(alloc);
    for (subject, predicate, object) in codes {
        patterns.push(JoinPattern {
            subject: part(*subject),
            predicate: part(*predicate),
            object: part(*object),
        })?;
    }
    Ok(patterns)
}
