//! Laws of repeated productions, and of reading back.
ghost use Rattle.turtle_reader.specs.Laws.{RepeatsStatements, RepeatsObjects, RepeatsVerbs, RepeatsMembers, GivesReadable, ReadsBack};

/// turtleDoc has statements as long as anything is left of the text.
pub fn statements_repeat()
    ensures { RepeatsStatements }
{}

/// objectList has objects as long as a comma comes next.
pub fn objects_repeat()
    ensures { RepeatsObjects }
{}

/// predicateObjectList goes on as long as a semicolon comes next.
pub fn verbs_repeat()
    ensures { RepeatsVerbs }
{}

/// A collection has members as long as no closing parenthesis comes next.
pub fn members_repeat()
    ensures { RepeatsMembers }
{}

/// What a text gives ascends, and can be written as N-Triples and read again: no subject is a
/// literal, each predicate is an IRI, and all IRIs, literals and tags are such as a text can hold.
/// Its blank nodes are those of the session whose numbers are from the first free one up to below
/// the next.
pub fn read_gives_readable()
    ensures { GivesReadable }
{}

/// What a text gives, written as N-Triples, is read by the labels of the store as the same triples,
/// blank nodes included.
pub fn read_back_after_write()
    ensures { ReadsBack }
{}
