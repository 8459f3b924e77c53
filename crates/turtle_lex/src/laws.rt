//! Laws of tokens.
ghost use Rattle.turtle_lex.specs.Laws.{FindsLongest, MissesNone, StandsAlone, EndsEarly};

/// What is found at a place is the longest token that stands there, by the productions.
pub fn finds_longest()
    ensures { FindsLongest }
{}

/// Where a fault is found no token stands, by the productions.
pub fn misses_none()
    ensures { MissesNone }
{}

/// At most one token stands at a place: a kind, and how many characters it has.
pub fn stands_alone()
    ensures { StandsAlone }
{}

/// The text ends too early exactly where all of it is the beginning of a token, or ends within an
/// escape, and no token stands there.
pub fn ends_early()
    ensures { EndsEarly }
{}
