//! Laws of components and of resolution.
ghost use Rattle.iri_ref.specs.Laws.{JoinsAgain, SplitsAtDelimiters, KeepsWithScheme, BeginsWithScheme, GivesScheme, RemovesDotSegments, KeepsOtherSegments, ShortensInput, KeepsCharacters};

/// The components of a text, joined, are that text.
pub fn split_then_join()
    ensures { JoinsAgain }
{}

/// Each component of a text ends at its delimiter, as in the pattern of RFC 3986 appendix B.
pub fn split_at_delimiters()
    ensures { SplitsAtDelimiters }
{}

/// A reference that has a scheme is its own target.
pub fn resolve_with_scheme()
    ensures { KeepsWithScheme }
{}

/// The target of any other reference begins with the scheme of the base and a colon.
pub fn resolve_begins_with_scheme()
    ensures { BeginsWithScheme }
{}

/// Each target has a scheme, so it may be a base.
pub fn resolve_gives_scheme()
    ensures { GivesScheme }
{}

/// A path whose dot segments are removed has no segment `.` or `..`.
pub fn dot_segments_are_removed()
    ensures { RemovesDotSegments }
{}

/// A path that has no segment `.` or `..` is kept as it is.
pub fn other_segments_are_kept()
    ensures { KeepsOtherSegments }
{}

/// Each step that removes dot segments shortens its input, so as many steps as there are
/// characters are enough.
pub fn dot_segments_end()
    ensures { ShortensInput }
{}

/// A target has the characters of the base and of the reference, and delimiters, and no others.
pub fn resolve_keeps_characters()
    ensures { KeepsCharacters }
{}
