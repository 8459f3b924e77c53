//! Laws of reading, of writing and of tokens.
ghost use Rattle.ntriples_text.specs.Laws.{ReadsAgain, ReadsNamedAgain, GivesReadable, LabelsStayApart, StoreLabelsAreWritten, FindsLongest, MissesNone, StandsAlone, EndsEarly};

/// Reading what was written gives the same triples, whatever triples without blank nodes a text can
/// give.
pub fn read_after_write()
    ensures { ReadsAgain }
{}

/// Reading by the labels of the store what was written gives the same triples, blank nodes included.
pub fn read_named_after_write()
    ensures { ReadsNamedAgain }
{}

/// What a text gives ascends, and can stand in a text again; its blank nodes are those of the
/// session whose numbers are from the first free one up to below the next.
pub fn read_gives_readable()
    ensures { GivesReadable }
{}

/// Two labels of a text are one node only where they are one label.
pub fn labels_stay_apart()
    ensures { LabelsStayApart }
{}

/// A label is that of a blank node of the store exactly where the node is written so.
pub fn store_labels_are_written()
    ensures { StoreLabelsAreWritten }
{}

/// What is found is the longest token that stands there, by the productions of section 7.
pub fn finds_longest()
    ensures { FindsLongest }
{}

/// Where a fault is found no token stands, by the productions.
pub fn misses_none()
    ensures { MissesNone }
{}

/// At most one token stands at a place: a kind, and how many characters it has.
pub fn stands_alone()
    ensures { StandsAlone }
{}

/// The text ends too early exactly where all that is left is the beginning of a token, or ends
/// within an escape, and no token stands there.
pub fn ends_early()
    ensures { EndsEarly }
{}
