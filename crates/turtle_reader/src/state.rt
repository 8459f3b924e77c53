//! How far the reading of a text has come.
ghost use Rattle.std.specs.Prelude.{◌≡◌};

use crate::table::NameTable;
use rdf_text::Text;
use triple_table::TripleTable;
use turtle_lex::{LexFault, Token};

/// How far the reading of a text has come (Turtle section 7): the token ahead, or its fault; what
/// prefixes stand for, and the base; the labels and the next number of a blank node; and the
/// triples.
#[derive(Debug, Drop)]
pub struct State {
    pub ahead: Result<Option<Token>, LexFault>,
    pub prefixes: NameTable<Text>,
    pub base: Option<Text>,
    pub labels: NameTable<u32>,
    pub session: u32,
    pub next: u32,
    pub triples: TripleTable,
}
