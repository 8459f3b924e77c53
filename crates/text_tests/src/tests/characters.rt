//! Characters and escapes (Turtle 1.1 section 6.5), and the numbers of refusals.

use crate::tests::rows::same;
use rdf_lexical::{
    CharSlice, RefusalKind, escaped_char, is_iri_char, is_pn_chars, is_pn_chars_base,
    is_pn_chars_u, numbered_char,
};
use std::test::Fail;

// Each row: a character, and whether it is in PN_CHARS_BASE, PN_CHARS_U, PN_CHARS and of an IRIREF.
const CHARACTERS: [(char, [bool; 4]); 33] = [
    ('A', [true, true, true, true]),
    ('z', [true, true, true, true]),
    ('@', [false, false, false, true]),
    ('[', [false, false, false, true]),
    ('_', [false, true, true, true]),
    ('-', [false, false, true, true]),
    ('7', [false, false, true, true]),
    (':', [false, false, false, true]),
    ('.', [false, false, false, true]),
    ('\u{B7}', [false, false, true, true]),
    ('\u{D7}', [false, false, false, true]),
    ('\u{F7}', [false, false, false, true]),
    ('\u{FF}', [true, true, true, true]),
    ('\u{36F}', [false, false, true, true]),
    ('\u{37E}', [false, false, false, true]),
    ('\u{203F}', [false, false, true, true]),
    ('\u{D7FF}', [true, true, true, true]),
    ('\u{E000}', [false, false, false, true]),
    ('\u{FEFF}', [true, true, true, true]),
    ('\u{10000}', [true, true, true, true]),
    ('\u{F0000}', [false, false, false, true]),
    (' ', [false, false, false, false]),
    ('\u{7F}', [false, false, false, true]),
    ('<', [false, false, false, false]),
    ('>', [false, false, false, false]),
    ('"', [false, false, false, false]),
    ('{', [false, false, false, false]),
    ('}', [false, false, false, false]),
    ('|', [false, false, false, false]),
    ('^', [false, false, false, false]),
    ('`', [false, false, false, false]),
    ('\\', [false, false, false, false]),
    ('\'', [false, false, false, true]),
];

// What stands for a character after a backslash.
const ESCAPES: [(char, Option<char>); 10] = [
    ('t', Some('\u{9}')),
    ('b', Some('\u{8}')),
    ('n', Some('\u{A}')),
    ('r', Some('\u{D}')),
    ('f', Some('\u{C}')),
    ('"', Some('"')),
    ('\'', Some('\'')),
    ('\\', Some('\\')),
    ('a', None),
    ('u', None),
];

// The digits after `\u` or `\U`, and the character.
const NUMBERS: [(&str, Option<char>); 13] = [
    ("0041", Some('A')),
    ("00e9", Some('\u{E9}')),
    ("00E9", Some('\u{E9}')),
    ("D7FF", Some('\u{D7FF}')),
    ("D800", None),
    ("dfff", None),
    ("E000", Some('\u{E000}')),
    ("0001F600", Some('\u{1F600}')),
    ("0010FFFF", Some('\u{10FFFF}')),
    ("00110000", None),
    ("FFFFFFFF", None),
    ("00g0", None),
    ("+041", None),
];

#[test]
fn characters(rt: HostRuntime) {
    for (character, [base, first, later, iri]) in CHARACTERS {
        same(
            &rt,
            "PN_CHARS_BASE",
            (character, is_pn_chars_base(character)),
            (character, base),
        );
        same(
            &rt,
            "PN_CHARS_U",
            (character, is_pn_chars_u(character)),
            (character, first),
        );
        same(
            &rt,
            "PN_CHARS",
            (character, is_pn_chars(character)),
            (character, later),
        );
        same(
            &rt,
            "IRIREF",
            (character, is_iri_char(character)),
            (character, iri),
        );
    }
}

#[test]
fn escapes(rt: HostRuntime) {
    for (character, meaning) in ESCAPES {
        same(
            &rt,
            "ECHAR",
            (character, escaped_char(character)),
            (character, meaning),
        );
    }
    for (text, meaning) in NUMBERS {
        same(&rt, text, numbered_char(&CharSlice::of_text(text)), meaning);
    }
}

const KINDS: [(RefusalKind, u8); 14] = [
    (RefusalKind::NotUtf8, 1),
    (RefusalKind::NoToken, 2),
    (RefusalKind::UnexpectedToken, 3),
    (RefusalKind::UndeclaredPrefix, 4),
    (RefusalKind::RelativeIri, 5),
    (RefusalKind::BadEscape, 6),
    (RefusalKind::FloatingPoint, 7),
    (RefusalKind::TooManyDigits, 8),
    (RefusalKind::YearOutOfRange, 9),
    (RefusalKind::LanguageString, 10),
    (RefusalKind::TooDeep, 11),
    (RefusalKind::NoStoreLabel, 12),
    (RefusalKind::BlankPredicate, 13),
    (RefusalKind::UnexpectedEnd, 14),
];

#[test]
fn kinds_of_refusals(rt: HostRuntime) -> Result<(), Fail> {
    for (kind, number) in KINDS {
        assert!(rt; kind.number() == number);
    }
    Ok(())
}
