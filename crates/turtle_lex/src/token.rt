//! Tokens, their kinds and their places.
use rdf_lexical::{Quotes, RefusalKind};

/// The kinds of tokens: the productions for terminals (Turtle section 6.5), the punctuation and
/// the words of the grammar.
#[derive(Clone, Copy, Debug, PartialEq, Eq)]
pub enum TokenKind {
    IriRef,
    /// PNAME_NS: a prefix and the colon.
    PrefixName,
    /// PNAME_LN: a prefix, the colon and a local name.
    PrefixedName,
    BlankNodeLabel,
    /// LANGTAG.
    LanguageTag,
    Integer,
    Decimal,
    Double,
    StringLiteral(Quotes),
    Dot,
    Semicolon,
    Comma,
    OpenBracket,
    CloseBracket,
    OpenParenthesis,
    CloseParenthesis,
    /// `^^`.
    Carets,
    /// `a`, which stands for rdf:type.
    A,
    True,
    False,
    /// `PREFIX`, in any case.
    Prefix,
    /// `BASE`, in any case.
    Base,
    /// `@prefix`.
    AtPrefix,
    /// `@base`.
    AtBase,
}

/// A place in a text: how many characters stand before it and how many bytes those have in UTF-8, and
/// its line, counted from 1 by LF.
#[derive(Clone, Copy, Debug, PartialEq, Eq)]
pub struct TextPlace {
    pub at: usize,
    pub byte: usize,
    pub line: u64,
}

/// A token: its kind, where it begins, and the place behind it.
#[derive(Clone, Copy, Debug, PartialEq, Eq)]
pub struct Token {
    pub kind: TokenKind,
    pub start: TextPlace,
    pub end: TextPlace,
}

/// Why no token is read: NoToken, BadEscape or UnexpectedEnd, and the line of the token's start, or
/// of the text's end where that came too early.
#[derive(Clone, Copy, Debug, PartialEq, Eq)]
pub struct LexFault {
    pub line: u64,
    pub kind: RefusalKind,
}
