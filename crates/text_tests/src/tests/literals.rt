//! Values and comparisons of literals (XML Schema Datatypes 1.1, SPARQL 1.1 section 17.3, RFC 4647). A row's parts stand
//! between blanks.

use crate::tests::rows::same;
use literal_order::{
    Lexical, LiteralValue, char_len, lang_matches, less, less_or_equal, profile, str, value,
};
use rdf_model::{Term, Text};
use std::alloc::{AllocError, Global};
use std::test::Fail;

/// A literal with a datatype of XML Schema.
fn literal(alloc: Global, lexical: &str, name: &str) -> Result<Term, AllocError> {
    let datatype = format!(in alloc; "http://www.w3.org/2001/XMLSchema#{name}")?;
    Ok(Term::Literal {
        lexical: Text::new(alloc, lexical)?,
        datatype: Text::from_string(datatype)?,
        language: None,
    })
}

/// A word for what a term is.
fn outcome(term: &Term) -> &'static str {
    match (profile(term), value(term)) {
        (Some(7), _) => "floating",
        (Some(8), _) => "digits",
        (Some(9), _) => "year",
        (Some(10), _) => "tag",
        (_, Lexical::NotTyped) => "none",
        (_, Lexical::IllTyped) => "ill",
        (_, Lexical::Value(_)) => "ok",
    }
}

// A datatype, what the forms after it are, and the forms.
const FORMS: &str = "integer ok +0 -0 007 000099999999999999999999 -99999999999999999999
    integer ill + - +-1 1. 1e3 x 0x1
    integer digits 100000000000000000000 -000100000000000000000000
    decimal ok .5 5. -.5 99999999999999999999.999999999999999999
    decimal ok 0.1234567890123456780000 00000000000000000000000001.0
    decimal ill . - +. 1.2.3 1e3 1,0
    decimal digits 100000000000000000000. 0.1234567890123456781
    byte digits 100000000000000000000
    float floating 1 x
    double floating 1e3
    duration none P1Y x
    Integer none 1
    boolean ok true false 1 0
    boolean ill 01 TRUE t
    nonPositiveInteger ok 0
    nonPositiveInteger ill 1
    negativeInteger ok -1
    negativeInteger ill -0
    nonNegativeInteger ok -0
    nonNegativeInteger ill -1
    positiveInteger ok 1
    positiveInteger ill 0
    long ok 9223372036854775807 -9223372036854775808
    long ill 9223372036854775808 -9223372036854775809
    int ok 2147483647 -2147483648
    int ill 2147483648 -2147483649
    short ok 32767 -32768
    short ill 32768 -32769
    byte ok 127 -128
    byte ill 128 -129
    unsignedLong ok 18446744073709551615 0
    unsignedLong ill 18446744073709551616 -1
    unsignedInt ok 4294967295 0
    unsignedInt ill 4294967296 -1
    unsignedShort ok 65535 0
    unsignedShort ill 65536 -1
    unsignedByte ok 255 0
    unsignedByte ill 256 -1
    date ok 2000-02-29 2024-02-29 0001-01-01 9999-12-31
    date ok 2020-01-01Z 2020-01-01+14:00 2020-01-01-14:00 2020-01-01-00:00
    date ill 1900-02-29 2023-02-29 2020-04-31 2020-13-01 2020-00-01 2020-01-00
    date ill 0000-01-32 010000-01-01 +2020-01-01 020-01-01 2020-1-01
    date ill 2020-01-01z 2020-01-01+14:01 2020-01-01-15:00 2020-01-01+13:60
    date ill 2020-01-01+1:00 2020-01-01T00:00:00 2020-01-01+01:00Z
    date year 0000-01-01 0000-02-30 10000-01-01 -0001-01-01 -0000-12-31
    dateTime ok 2020-01-01T24:00:00.0 2020-01-01T23:59:59.999999999Z
    dateTime ok 9999-12-31T24:00:00Z 0001-01-01T00:00:00+14:00
    dateTime ill 2020-01-01T24:00:01 2020-01-01T24:00:00.1 2020-01-01T23:59:60
    dateTime ill 2020-01-01T23:60:00 2020-01-01T25:00:00 2020-01-01T00:00:00.
    dateTime ill 2023-02-30T00:00:00.0000000000 2020-01-01T00:00Z 2020-01-01
    dateTime digits 2020-01-01T00:00:00.0000000000
    dateTime digits 0000-02-30T00:00:00.0000000000
    dateTime year 10000-01-01T00:00:00 0000-12-31T24:00:00";

// The forms that are empty or hold a blank, each with its datatype and what it is.
const OTHER_FORMS: [(&str, &str, &str); 3] = [
    ("", "integer", "ill"),
    (" 1", "integer", "ill"),
    ("", "string", "ok"),
];

#[test]
fn forms(rt: HostRuntime) -> Result<(), Fail> {
    for row in FORMS.lines() {
        let mut parts = row.split_whitespace();
        let datatype = parts.next().expect(&rt, "a datatype");
        let wanted = parts.next().expect(&rt, "an outcome");
        for form in parts {
            let term = literal(rt.alloc(), form, datatype)?;
            same(&rt, form, outcome(&term), wanted);
        }
    }
    for (form, datatype, wanted) in OTHER_FORMS {
        let term = literal(rt.alloc(), form, datatype)?;
        same(&rt, form, outcome(&term), wanted);
    }
    Ok(())
}

// The number that a decimal is, in units of 10^-18.
fn number(alloc: Global, lexical: &str) -> Result<Option<i128>, AllocError> {
    let term = literal(alloc, lexical, "decimal")?;
    Ok(match value(&term) {
        Lexical::Value(LiteralValue::Number(number)) => Some(number),
        _ => None,
    })
}

const NUMBERS: [(&str, i128); 4] = [
    ("-0.0", 0),
    ("+007.50", 7_500_000_000_000_000_000),
    ("-.000000000000000001", -1),
    (
        "99999999999999999999.999999999999999999",
        99_999_999_999_999_999_999_999_999_999_999_999_999,
    ),
];

#[test]
fn numbers(rt: HostRuntime) -> Result<(), Fail> {
    for (lexical, wanted) in NUMBERS {
        same(&rt, lexical, number(rt.alloc(), lexical)?, Some(wanted));
    }
    Ok(())
}

// The seconds from 0000-01-01T00:00:00, the nanoseconds, and whether there is an offset.
fn instant(
    alloc: Global,
    lexical: &str,
    datatype: &str,
) -> Result<Option<(u64, u32, bool)>, AllocError> {
    let term = literal(alloc, lexical, datatype)?;
    Ok(match value(&term) {
        Lexical::Value(LiteralValue::DateTime(at) | LiteralValue::Date(at)) => {
            Some((at.seconds, at.nanoseconds, at.has_offset))
        }
        _ => None,
    })
}

const INSTANTS: [(&str, &str, (u64, u32, bool)); 6] = [
    (
        "1970-01-01T00:00:00",
        "dateTime",
        (62_167_219_200, 0, false),
    ),
    (
        "0001-01-01T00:00:00+14:00",
        "dateTime",
        (31_572_000, 0, true),
    ),
    (
        "2024-02-29T12:30:15.25-01:30",
        "dateTime",
        (63_876_434_415, 250_000_000, true),
    ),
    (
        "9999-12-31T24:00:00Z",
        "dateTime",
        (315_569_520_000, 0, true),
    ),
    ("2020-01-02", "date", (63_745_142_400, 0, false)),
    ("2020-01-02+14:00", "date", (63_745_092_000, 0, true)),
];

#[test]
fn instants(rt: HostRuntime) -> Result<(), Fail> {
    for (lexical, datatype, wanted) in INSTANTS {
        let found = instant(rt.alloc(), lexical, datatype)?;
        same(&rt, lexical, found, Some(wanted));
    }
    Ok(())
}

/// A word for what the two comparisons answer.
fn place(left: &Term, right: &Term) -> &'static str {
    match (less(left, right), less_or_equal(left, right)) {
        (Some(true), Some(true)) => "below",
        (Some(false), Some(true)) => "same",
        (Some(false), Some(false)) => "above",
        (None, None) => "none",
        _ => "contradiction",
    }
}

#[test]
fn comparisons(rt: HostRuntime) -> Result<(), Fail> {
    let rows = "10 integer above 9.5 decimal
        9 integer below 10 byte
        -0 integer same +0.0 decimal
        2020-01-01T24:00:00Z dateTime same 2020-01-02T00:00:00Z dateTime
        2020-01-01+14:00 date below 2020-01-01Z date
        2020-01-01Z date none 2020-01-02 date
        2020-01-02T00:00:00Z dateTime none 2020-01-01T00:00:00 dateTime
        2020-01-01T00:00:00.1 dateTime same 2020-01-01T00:00:00.10 dateTime
        2020-01-01T00:00:00.1 dateTime below 2020-01-01T00:00:00.11 dateTime
        2020-01-01 date none 2020-01-01T00:00:00 dateTime
        300 byte none 1 integer
        1 integer none 1 string
        1 boolean none 1 integer
        false boolean below 1 boolean
        true boolean same 1 boolean
        Z string below a string
        ab string above a string
        \u{ffff} string below \u{10000} string
        a token none b token";
    for row in rows.lines() {
        let mut parts = row.split_whitespace();
        let left = parts.next().expect(&rt, "a form");
        let left_type = parts.next().expect(&rt, "its datatype");
        let wanted = parts.next().expect(&rt, "an outcome");
        let right = parts.next().expect(&rt, "a form");
        let right_type = parts.next().expect(&rt, "its datatype");
        let left = literal(rt.alloc(), left, left_type)?;
        let right = literal(rt.alloc(), right, right_type)?;
        same(&rt, row, place(&left, &right), wanted);
    }
    Ok(())
}

// A language tag, a range, and whether the range matches the tag (RFC 4647 section 3.3.1).
const RANGES: [(&str, &str, bool); 8] = [
    ("en", "en", true),
    ("de-ch-1996", "de-CH", true),
    ("eng", "en", false),
    ("en", "en-us", false),
    ("fr-en", "en", false),
    ("en", "*", true),
    ("", "*", false),
    ("en", "", false),
];

#[test]
fn texts(rt: HostRuntime) {
    for (tag, range, wanted) in RANGES {
        same(&rt, tag, lang_matches(tag, range), wanted);
    }
    same(&rt, "char_len", char_len("é\u{ffff}\u{10000}"), 3);
}

#[test]
fn lexical_forms(rt: HostRuntime) -> Result<(), Fail> {
    let number = literal(rt.alloc(), "01", "integer")?;
    same(&rt, "a literal", str(&number), Some("01"));
    let iri = Term::Iri(Text::new(rt.alloc(), "e:a")?);
    same(&rt, "an IRI", str(&iri), Some("e:a"));
    let (session, number) = (1, 1);
    same(
        &rt,
        "a blank node",
        str(&Term::Blank { session, number }),
        None,
    );
    Ok(())
}

// A literal of rdf:langString.
fn tagged(alloc: Global, language: Option<Text>) -> Result<Term, AllocError> {
    let datatype = "http://www.w3.org/1999/02/22-rdf-syntax-ns#langString";
    let lexical = Text::new(alloc, "a")?;
    let datatype = Text::new(alloc, datatype)?;
    Ok(Term::Literal {
        lexical,
        datatype,
        language,
    })
}

#[test]
fn language_strings(rt: HostRuntime) -> Result<(), Fail> {
    same(&rt, "no tag", outcome(&tagged(rt.alloc(), None)?), "tag");
    let tag = Text::new(rt.alloc(), "en")?;
    same(
        &rt,
        "a tag",
        outcome(&tagged(rt.alloc(), Some(tag))?),
        "none",
    );
    Ok(())
}
