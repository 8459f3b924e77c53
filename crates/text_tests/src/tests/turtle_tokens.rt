//! Tokens of Turtle and what they stand for (Turtle 1.1 sections 6.2 to 6.5).

use crate::tests::rows::same;
use std::alloc::Global;
use std::process::Abort;
use std::test::Fail;
use turtle_lex::{
    CharSlice, Quotes, TextPlace, TokenKind, iri_text, local_name, next_token, plain_text,
    split_name, string_value, token_text,
};

// The tokens of characters, each with the place behind it, and the fault after them with its line, if there is one.
fn listing(alloc: Global, characters: &CharSlice<'_>) -> Result<String, Fail> {
    let mut found = String::new(alloc);
    let mut place = TextPlace::start();
    let mut after_string = false;
    let mut left = characters.len();
    while left > 0 {
        left -= 1;
        match next_token(characters, place, after_string) {
            Ok(Some(token)) => {
                let length = token_text(characters, token).len();
                write!(found, "{:?} {}, ", token.kind, token.start.at + length)?;
                place = token.end;
                after_string = matches!(token.kind, TokenKind::StringLiteral(_));
            }
            Ok(None) => left = 0,
            Err(fault) => {
                write!(found, "{:?} in {}, ", fault.kind, fault.line)?;
                left = 0;
            }
        }
    }
    Ok(found)
}

// Whether the text has these tokens, as `listing` gives them.
fn expect_tokens(rt: &impl Abort, alloc: Global, text: &str, wanted: &str) -> Result<(), Fail> {
    let found = listing(alloc, &CharSlice::of_text(text))?;
    same(rt, text, found.as_str(), wanted);
    Ok(())
}

const NUMBERS: [(&str, &str); 18] = [
    ("1.", "Integer 1, Dot 2, "),
    ("1.5.", "Decimal 3, Dot 4, "),
    (".5", "Decimal 2, "),
    ("1e5", "Double 3, "),
    ("1.e5", "Double 4, "),
    (".5E-7x:", "Double 5, PrefixName 7, "),
    ("-1", "Integer 2, "),
    ("+.5", "Decimal 3, "),
    ("1e", "Integer 1, UnexpectedEnd in 1, "),
    ("1e ", "Integer 1, NoToken in 1, "),
    ("1.5e+ ", "Decimal 3, NoToken in 1, "),
    ("+", "UnexpectedEnd in 1, "),
    ("-.", "UnexpectedEnd in 1, "),
    ("+.e", "NoToken in 1, "),
    ("a.b:c", "PrefixedName 5, "),
    ("e:a.", "PrefixedName 3, Dot 4, "),
    ("e:a..b", "PrefixedName 6, "),
    ("e:.5", "PrefixName 2, Decimal 4, "),
];

#[test]
fn numbers(rt: HostRuntime) -> Result<(), Fail> {
    for (text, wanted) in NUMBERS {
        expect_tokens(&rt, rt.alloc(), text, wanted)?;
    }
    Ok(())
}

const NAMES_AND_WHITE_SPACE: [(&str, &str); 19] = [
    ("e:%41", "PrefixedName 5, "),
    ("e:\\~x", "PrefixedName 5, "),
    ("e:a%4", "PrefixedName 3, NoToken in 1, "),
    ("e:-", "PrefixName 2, UnexpectedEnd in 1, "),
    (":", "PrefixName 1, "),
    (":a:b", "PrefixedName 4, "),
    ("true:x", "PrefixedName 6, "),
    ("_:b.", "BlankNodeLabel 3, Dot 4, "),
    ("_:b..c", "BlankNodeLabel 6, "),
    ("_", "UnexpectedEnd in 1, "),
    ("_:", "UnexpectedEnd in 1, "),
    ("_::", "NoToken in 1, "),
    ("_x", "NoToken in 1, "),
    ("_:-", "NoToken in 1, "),
    ("", ""),
    (" \t\r\n", ""),
    ("# the end", ""),
    ("#x\ra # y\n.", "A 4, Dot 10, "),
    (
        "[](),;.",
        "OpenBracket 1, CloseBracket 2, OpenParenthesis 3, CloseParenthesis 4, Comma 5, Semicolon 6, Dot 7, ",
    ),
];

#[test]
fn names_and_white_space(rt: HostRuntime) -> Result<(), Fail> {
    for (text, wanted) in NAMES_AND_WHITE_SPACE {
        expect_tokens(&rt, rt.alloc(), text, wanted)?;
    }
    Ok(())
}

const DIRECTIVES_AND_TAGS: [(&str, &str); 18] = [
    ("@prefix pre:", "AtPrefix 7, PrefixName 12, "),
    ("@base<e:>", "AtBase 5, IriRef 9, "),
    ("PREFIX", "Prefix 6, "),
    ("prefix bAsE", "Prefix 6, Base 11, "),
    ("@PREFIX ", "NoToken in 1, "),
    ("@prefixe:", "NoToken in 1, "),
    ("@prefix-a", "NoToken in 1, "),
    ("@ba", "UnexpectedEnd in 1, "),
    ("@", "UnexpectedEnd in 1, "),
    ("@en-us", "NoToken in 1, "),
    (
        "\"x\"@en-us.",
        "StringLiteral(Double) 3, LanguageTag 9, Dot 10, ",
    ),
    (
        "\"x\" #\n@en-",
        "StringLiteral(Double) 3, LanguageTag 9, UnexpectedEnd in 2, ",
    ),
    (
        "\"x\"@prefix e:",
        "StringLiteral(Double) 3, LanguageTag 10, PrefixName 13, ",
    ),
    ("\"x\"@", "StringLiteral(Double) 3, UnexpectedEnd in 1, "),
    ("\"x\"@1", "StringLiteral(Double) 3, NoToken in 1, "),
    ("\"x\"^^", "StringLiteral(Double) 3, Carets 5, "),
    ("\"x\"^", "StringLiteral(Double) 3, UnexpectedEnd in 1, "),
    ("\"x\"^x", "StringLiteral(Double) 3, NoToken in 1, "),
];

#[test]
fn directives_and_tags(rt: HostRuntime) -> Result<(), Fail> {
    for (text, wanted) in DIRECTIVES_AND_TAGS {
        expect_tokens(&rt, rt.alloc(), text, wanted)?;
    }
    Ok(())
}

const WORDS: [(&str, &str); 12] = [
    ("true", "True 4, "),
    ("false.", "False 5, Dot 6, "),
    ("true.x:y", "PrefixedName 8, "),
    ("True ", "NoToken in 1, "),
    ("fals", "UnexpectedEnd in 1, "),
    ("pre.", "UnexpectedEnd in 1, "),
    ("pre. ", "NoToken in 1, "),
    ("a.:b", "A 1, Dot 2, PrefixedName 4, "),
    ("aa\u{300} ", "NoToken in 1, "),
    ("\n\n{", "NoToken in 3, "),
    ("\n\u{FEFF}a:", "PrefixName 4, "),
    (
        "<e:\u{E9}> \u{8A9E}:\u{10400}x \"\u{1F600}\" .",
        "IriRef 5, PrefixedName 10, StringLiteral(Double) 14, Dot 16, ",
    ),
];

#[test]
fn words(rt: HostRuntime) -> Result<(), Fail> {
    for (text, wanted) in WORDS {
        expect_tokens(&rt, rt.alloc(), text, wanted)?;
    }
    Ok(())
}

const STRINGS: [(&str, &str); 25] = [
    ("\"\"", "StringLiteral(Double) 2, "),
    ("''", "StringLiteral(Single) 2, "),
    ("'\"'", "StringLiteral(Single) 3, "),
    ("\"\"\"\"\"\"", "StringLiteral(LongDouble) 6, "),
    ("'''a''b'c'''", "StringLiteral(LongSingle) 12, "),
    (
        "\"\"\"x\"\"\"\"",
        "StringLiteral(LongDouble) 7, UnexpectedEnd in 1, ",
    ),
    ("\"\"\"x\"\"", "UnexpectedEnd in 1, "),
    ("\"\"\"\"\"", "UnexpectedEnd in 1, "),
    ("\"\"\"a\nb\r\"\"\"", "StringLiteral(LongDouble) 10, "),
    ("\"\"\"a\n\n", "UnexpectedEnd in 3, "),
    (
        "\"\\t\\b\\n\\r\\f\\\"\\'\\\\\"",
        "StringLiteral(Double) 18, ",
    ),
    ("\"\\u00e9\\U0001F600\"", "StringLiteral(Double) 18, "),
    ("\"\\uD800\"", "BadEscape in 1, "),
    ("\"\\U00110000\"", "BadEscape in 1, "),
    ("\"\\u00\"", "BadEscape in 1, "),
    ("\"\\a\"", "BadEscape in 1, "),
    ("\"\\", "UnexpectedEnd in 1, "),
    ("\"\\u00", "UnexpectedEnd in 1, "),
    ("\"\\U0001F60", "UnexpectedEnd in 1, "),
    ("\"\\uD800", "BadEscape in 1, "),
    ("\"\\uD8", "UnexpectedEnd in 1, "),
    ("'''a''\\u00", "UnexpectedEnd in 1, "),
    ("\"a\nb\"", "NoToken in 1, "),
    ("'a\rb'", "NoToken in 1, "),
    ("\"a", "UnexpectedEnd in 1, "),
];

#[test]
fn strings(rt: HostRuntime) -> Result<(), Fail> {
    for (text, wanted) in STRINGS {
        expect_tokens(&rt, rt.alloc(), text, wanted)?;
    }
    Ok(())
}

const IRIS: [(&str, &str); 12] = [
    ("<>", "IriRef 2, "),
    ("<\\u0065:a>", "IriRef 10, "),
    ("<e:a b>", "NoToken in 1, "),
    ("\n<e:\n>", "NoToken in 2, "),
    ("<\\u003E>", "BadEscape in 1, "),
    ("<\\u0020>", "BadEscape in 1, "),
    ("<\\t>", "BadEscape in 1, "),
    ("<e:\\u00", "UnexpectedEnd in 1, "),
    ("<\\u000", "UnexpectedEnd in 1, "),
    ("<e:a b\\t>", "NoToken in 1, "),
    ("<e:\\t b>", "BadEscape in 1, "),
    ("<e:", "UnexpectedEnd in 1, "),
];

#[test]
fn iris(rt: HostRuntime) -> Result<(), Fail> {
    for (text, wanted) in IRIS {
        expect_tokens(&rt, rt.alloc(), text, wanted)?;
    }
    Ok(())
}

#[test]
fn meanings(rt: HostRuntime) -> Result<(), Fail> {
    let alloc = rt.alloc();
    let strings = [
        (
            Quotes::Double,
            "\"\\t\\b\\n\\r\\f\\\"\\'\\\\\"",
            "\t\u{8}\n\r\u{C}\"'\\",
        ),
        (Quotes::Single, "'\\u00e9\\U0001F600'", "\u{E9}\u{1F600}"),
        (Quotes::LongDouble, "\"\"\"a\"\"b\n\"\"\"", "a\"\"b\n"),
        (Quotes::LongSingle, "''''x'''", "'x"),
    ];
    for (quotes, text, value) in strings {
        same(
            &rt,
            value,
            string_value(alloc, quotes, &CharSlice::of_text(text))?.as_str(),
            value,
        );
    }
    let iri = iri_text(alloc, &CharSlice::of_text("<\\u0065:a>"))?;
    same(&rt, "e:a", iri.as_str(), "e:a");
    let (prefix, local) = split_name(&CharSlice::of_text("a.b:\\~c:%41"));
    same(&rt, "a.b", plain_text(alloc, &prefix)?.as_str(), "a.b");
    same(&rt, "~c:%41", local_name(alloc, &local)?.as_str(), "~c:%41");
    Ok(())
}
