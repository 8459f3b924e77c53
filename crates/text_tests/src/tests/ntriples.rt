//! Texts of N-Triples, read and written (N-Triples 1.1 sections 2 to 4 and 7).

use crate::tests::rows::same;
use ntriples_text::{ReadFault, named_term, read, read_named, write};
use std::alloc::Global;
use std::process::Abort;
use std::test::Fail;

// The triples of a text, as they are written, or its refusal with its line; and the next number of a blank node. The
// first is number 7 of session 3.
fn outcome(rt: &impl Abort, alloc: Global, text: &[u8]) -> Result<String, Fail> {
    assert!(rt; text.len() < 1000);
    let mut next = 7;
    let mut found = String::new(alloc);
    match read(alloc, 3, &mut next, text) {
        Ok(triples) => found = write(alloc, triples.as_slice())?,
        Err(fault) => write!(found, "{fault:?} ")?,
    }
    write!(found, "next {next}")?;
    Ok(found)
}

// Bytes that are no UTF-8, and their refusal.
const WRONG_BYTES: [(&[u8], &str); 3] = [
    (b"<e:a> \xFF", "Refusal { line: 1, kind: NotUtf8 } next 7"),
    (
        b"<e:a> .\n<e:b> \xC3(\n",
        "Refusal { line: 2, kind: NotUtf8 } next 7",
    ),
    (
        b"\n\n\xE2\x82\n",
        "Refusal { line: 3, kind: NotUtf8 } next 7",
    ),
];

// Each row: a refusal, and texts that meet it.
const REFUSED: [(&str, &[&str]); 18] = [
    (
        "Refusal { line: 2, kind: NoToken } next 7",
        &[
            "<e:a> <e:p> <e:o> .\n[ ] <e:p> <e:o> .\n",
            "\n<e:a\n> <e:p> <e:o> .\n",
        ],
    ),
    (
        "Refusal { line: 1, kind: NoToken } next 7",
        &[
            "<e:a b> <e:p> <e:o> .\n",
            "<e:a> <e:p> \"x\r\ny\" .\n",
            "<e:a> <e:p> \"x\"^<e:t> .\n",
            "\u{FEFF}<e:a> <e:p> <e:o> .\n",
            "<e:a> <e:p> <e:o> . <e:b c>\n",
            "_a <e:p> <e:o> .\n",
            "_:.a <e:p> <e:o> .\n",
            "_:-a <e:p> <e:o> .\n",
            "<e:a> _: <e:o> .\n",
            "_:\n",
            "<e:a> <e:p> \"x\"@1 .\n",
            "<e:a> <e:p> \"x\"@\n",
            "<e:a> <e:p> \"x\"@en- .\n",
            "<e:a> <e:p> \"x\"@en-",
            "<e:a> <e:p> \"x\"@en--us .\n",
        ],
    ),
    (
        "Refusal { line: 1, kind: BadEscape } next 7",
        &[
            "<e:a> <e:p> \"\\a\" .\n",
            "<e:\\n> <e:p> <e:o> .\n",
            "<e:a> <e:p> \"\\\n\" .\n",
            "<e:a> <e:p> \"\\u00\" .\n",
            "<e:a> <e:p> \"\\u00\"",
            "<e:a> <e:p> \"\\uD800\" .\n",
            "<e:a> <e:p> \"\\uDFFF\" .\n",
            "<e:a> <e:p> \"\\U00110000\" .\n",
            "<e:a> <e:p> \"\\U0010FFF\" .\n",
            "<e:\\u0020> <e:p> <e:o> .\n",
            "<e:a\\u003E> <e:p> <e:o> .\n",
            "<e:a> <e:p> \"x\"^^<e:\\u00> .",
        ],
    ),
    (
        "Refusal { line: 3, kind: BadEscape } next 7",
        &["<e:a> <e:p> <e:o> .\n\r\n<e:a> <e:p> \"\\u00g0\" .\n"],
    ),
    (
        "Refusal { line: 1, kind: UnexpectedToken } next 7",
        &[
            "\"x\" <e:p> <e:o> .\n",
            "<e:a> \"p\" <e:o> .\n",
            "<e:a> <e:p> . <e:o>\n",
            "<e:a> <e:p>\n<e:o> .\n",
            "<e:a> <e:p> <e:o> . .\n",
            "<e:a> <e:p> <e:o> . <b>\n",
            "<e:a> <e:p> \"1\"^^\"x\" .\n",
            "<e:a> <e:p> \"1\"^^_:t .\n",
            "<e:a> <e:p> <e:o>^^<e:t> .\n",
            "<e:a> <e:p> <e:o> .\r<e:b>\r",
            "@prefix e: <e:> .\n",
            "<e:a> @en <e:o> .\n",
            "<e:a> <e:p> @en .\n",
            "<e:a> <e:p> \"x\"@en@fr .\n",
            "<e:a> <e:p> \"x\"@en^^<e:t> .\n",
            "<e:a> <e:p> <e:o> _:b .\n",
            "<e:a> <e:p> _:b..\n",
        ],
    ),
    (
        "Refusal { line: 2, kind: UnexpectedToken } next 7",
        &["<e:a> <e:p> <e:o> .\n<e:a> <e:p> <e:o>\n"],
    ),
    (
        "Refusal { line: 3, kind: UnexpectedToken } next 7",
        &["\r\n\r\n<e:b>\r\n"],
    ),
    (
        "Refusal { line: 1, kind: BlankPredicate } next 7",
        &["<e:a> _:p <e:o> .\n"],
    ),
    (
        "Refusal { line: 3, kind: BlankPredicate } next 7",
        &["# c\n_:a <e:p> _:c .\n_:a _:p \"x"],
    ),
    (
        "Refusal { line: 1, kind: RelativeIri } next 7",
        &[
            "<a> <e:p> <e:o> .\n_\n",
            "<e:a> <e:p> <> .\n",
            "<e:a> <e:p> \"1\"^^<t> .\n",
        ],
    ),
    (
        "Refusal { line: 3, kind: FloatingPoint } next 7",
        &["# c\n\n<e:a> <e:p> \"1\"^^<http://www.w3.org/2001/XMLSchema#double> ."],
    ),
    (
        "Refusal { line: 1, kind: FloatingPoint } next 7",
        &["<e:a> <e:p> \"1\"^^<http://www.w3.org/2001/XMLSchema#float> _"],
    ),
    (
        "Refusal { line: 1, kind: TooManyDigits } next 7",
        &[
            "<e:a> <e:p> \"100000000000000000000\"^^<http://www.w3.org/2001/XMLSchema#integer> _",
            "<e:a> <e:p> \"0.0000000000000000001\"^^<http://www.w3.org/2001/XMLSchema#decimal> .",
            "<e:a> <e:p> \"0000-02-30T00:00:00.0000000000\"^^<http://www.w3.org/2001/XMLSchema#dateTime> .",
        ],
    ),
    (
        "Refusal { line: 2, kind: YearOutOfRange } next 7",
        &["\n<e:a> <e:p> \"0000-01-01\"^^<http://www.w3.org/2001/XMLSchema#date> ."],
    ),
    (
        "Refusal { line: 1, kind: LanguageString } next 7",
        &["<e:a> <e:p> \"1\"^^<http://www.w3.org/1999/02/22-rdf-syntax-ns#langString> ."],
    ),
    (
        "Refusal { line: 1, kind: UnexpectedEnd } next 7",
        &[
            "<e:a",
            "<e:a> <e:p> \"x",
            "<e:a> <e:p> \"x\"^",
            "<e:a> <e:p> <e:o>",
            "_",
            "_:a",
            "<e:a> <e:p> _:b",
            "<e:a> <e:p> \"x\"@",
            "<e:a> <e:p> \"x\"@en",
            "<e:a> <e:p> \"\\",
            "<e:\\u00",
            "<\\u000",
            "<e:a> <e:p> \"\\uD8",
            "<e:a> <e:p> \"\\U0010FFF",
        ],
    ),
    (
        "Refusal { line: 3, kind: UnexpectedEnd } next 7",
        &["\n\n<e:a> # c ."],
    ),
    (
        "Refusal { line: 2, kind: UnexpectedEnd } next 7",
        &["<e:a> <e:p> <e:o> .\n_:"],
    ),
];

#[test]
fn refusals(rt: HostRuntime) -> Result<(), Fail> {
    for (bytes, wanted) in WRONG_BYTES {
        let found = outcome(&rt, rt.alloc(), bytes)?;
        same(&rt, "bytes", found.as_str(), wanted);
    }
    for (wanted, texts) in REFUSED {
        for text in texts {
            let found = outcome(&rt, rt.alloc(), text.as_bytes())?;
            same(&rt, *text, found.as_str(), wanted);
        }
    }
    Ok(())
}

// Each row: a text, and what it is when it is written again, with the next number of a blank node.
const READ: [(&str, &str); 22] = [
    ("", "next 7"),
    ("\n\r\n \t# c\n\r", "next 7"),
    ("<e:a><e:p>\"x\".", "<e:a> <e:p> \"x\" .\nnext 7"),
    (
        " <e:a>\t<e:p> <e:o> . # c\r\n",
        "<e:a> <e:p> <e:o> .\nnext 7",
    ),
    (
        "<e:b> <e:p> <e:o> .\r<e:a> <e:p> <e:o> .",
        "<e:a> <e:p> <e:o> .\n<e:b> <e:p> <e:o> .\nnext 7",
    ),
    (
        "<e:a> <e:p> <e:o> .\n<e:a> <e:p> <e:o> .\n",
        "<e:a> <e:p> <e:o> .\nnext 7",
    ),
    (
        "<e:a> <e:p> \"x\" .\n<e:a> <e:p> \"x\"^^<http://www.w3.org/2001/XMLSchema#string> .\n",
        "<e:a> <e:p> \"x\" .\nnext 7",
    ),
    (
        "<e:a> <e:p> \"x\"^^<http://www.w3.org/2001/XMLSchema#integer> .\n",
        "<e:a> <e:p> \"x\"^^<http://www.w3.org/2001/XMLSchema#integer> .\nnext 7",
    ),
    (
        "<e:a> <e:p> \"1\" ^^ <e:t> .\n",
        "<e:a> <e:p> \"1\"^^<e:t> .\nnext 7",
    ),
    (
        "<e:\u{E9}#> <e:p> \"'\t\u{1F600} # <x>\" .\n",
        "<e:\u{E9}#> <e:p> \"'\t\u{1F600} # <x>\" .\nnext 7",
    ),
    (
        "_:b <e:p> <e:o> .\n_:a <e:q> <e:o> .\n",
        "_:s3x7 <e:p> <e:o> .\n_:s3x8 <e:q> <e:o> .\nnext 9",
    ),
    (
        "_:a <e:p> _:b .\n_:b <e:q> _:a .\n_:b <e:q> _:a .\n",
        "_:s3x7 <e:p> _:s3x8 .\n_:s3x8 <e:q> _:s3x7 .\nnext 9",
    ),
    ("<e:a> <e:p> _:b.", "<e:a> <e:p> _:s3x7 .\nnext 8"),
    ("_:a.b <e:p> _:a.b.", "_:s3x7 <e:p> _:s3x7 .\nnext 8"),
    (
        "_:a <e:p> _:A .\n_:a..b <e:p> _:a.b .",
        "_:s3x7 <e:p> _:s3x8 .\n_:s3x9 <e:p> _:s3x10 .\nnext 11",
    ),
    (
        "_:1:\u{E9}<e:p>_:_-\u{B7}.\n",
        "_:s3x7 <e:p> _:s3x8 .\nnext 9",
    ),
    (
        "<e:a> <e:p> \"x\"@EN-Gb .",
        "<e:a> <e:p> \"x\"@en-gb .\nnext 7",
    ),
    (
        "<e:a> <e:p> \"x\"@en.\n<e:a> <e:p> \"x\"@EN .\n",
        "<e:a> <e:p> \"x\"@en .\nnext 7",
    ),
    (
        "<e:a> <e:p> \"x\" @de-1996 .",
        "<e:a> <e:p> \"x\"@de-1996 .\nnext 7",
    ),
    (
        "<e:a> <e:p> \"\\t\\b\\n\\r\\f\\\"\\'\\\\\" .",
        "<e:a> <e:p> \"\t\u{8}\\n\\r\u{C}\\\"'\\\\\" .\nnext 7",
    ),
    (
        "<e:a> <e:p> \"\\u00e9\\U0001F600\\u0022\\\\u0041\" .",
        "<e:a> <e:p> \"\u{E9}\u{1F600}\\\"\\\\u0041\" .\nnext 7",
    ),
    (
        "<\\u0065:\\u00E9\\U0010FFFF> <e:p> <e:o> .",
        "<e:\u{E9}\u{10FFFF}> <e:p> <e:o> .\nnext 7",
    ),
];

#[test]
fn triples(rt: HostRuntime) -> Result<(), Fail> {
    for (text, wanted) in READ {
        let found = outcome(&rt, rt.alloc(), text.as_bytes())?;
        same(&rt, text, found.as_str(), wanted);
    }
    Ok(())
}

// Each row: a text with labels of the store, and what it is when it is written again, or the number of its refusal.
const NAMED: &str = r#"
_:s1x1 <e:p> _:s64x4294967295 . => _:s1x1 <e:p> _:s64x4294967295 .
_:s10x20 <e:p> _:s10x20 . => _:s10x20 <e:p> _:s10x20 .
<e:a> <e:p> "_:b" . # _:b => <e:a> <e:p> "_:b" .
_:s65x1 <e:p> <e:o> . => 12
_:s0x1 <e:p> <e:o> . => 12
_:s1x0 <e:p> <e:o> . => 12
_:s01x1 <e:p> <e:o> . => 12
_:s1x01 <e:p> <e:o> . => 12
_:s1x4294967296 <e:p> <e:o> . => 12
_:s1x18446744073709551617 <e:p> <e:o> . => 12
_:s1 <e:p> <e:o> . => 12
_:s1x <e:p> <e:o> . => 12
_:sx1 <e:p> <e:o> . => 12
_:x1s1 <e:p> <e:o> . => 12
_:S1x1 <e:p> <e:o> . => 12
_:s1X1 <e:p> <e:o> . => 12
_:s1x1x1 <e:p> <e:o> . => 12
_:s1x1.5 <e:p> <e:o> . => 12
_:s1x1: <e:p> <e:o> . => 12
_:s1x1a <e:p> <e:o> . => 12
_:s <e:p> <e:o> . => 12
_:1x1 <e:p> <e:o> . => 12
<e:a> <e:p> _:b . => 12
<e:a> <e:p> _:s1x1. => <e:a> <e:p> _:s1x1 .
_:x <e:p> " => 12
_:s1x1 _:b <e:o> . => 13
_:s1x1 _:s1x2 <e:o> . => 13
<e:a> <e:p> <e:o> _:b . => 3
<e:a> <e:p> "1"^^_:b . => 3
_:b. <e:p> <e:o> . => 12
<a> <e:p> _:b . => 5
"#;

// The text of the triples that a text gives with labels of the store, or the number of its refusal.
fn named_outcome(rt: &impl Abort, alloc: Global, text: &str) -> Result<String, Fail> {
    assert!(rt; text.len() < 1000);
    let mut found = String::new(alloc);
    match read_named(alloc, text.as_bytes()) {
        Ok(triples) => found = write(alloc, triples.as_slice())?,
        Err(ReadFault::Refusal { line: _, kind }) => write!(found, "{}", kind.number())?,
        Err(ReadFault::Memory) => write!(found, "memory")?,
    }
    Ok(found)
}

#[test]
fn named_texts(rt: HostRuntime) -> Result<(), Fail> {
    for row in NAMED.lines() {
        if let Some((text, wanted)) = row.split_once(" => ") {
            let found = named_outcome(&rt, rt.alloc(), text)?;
            same(&rt, row, found.trim_end(), wanted);
        }
    }
    Ok(())
}

// Each row: a text, and the term that it is alone; `none` where it is none.
const TERMS: &str = r#"
<e:a> => <e:a>
_:s2x5 => _:s2x5
"x" => "x"
"x y  z" => "x y  z"
"a\"b\\" => "a\"b\\"
"x"@EN => "x"@en
"1"^^<http://www.w3.org/2001/XMLSchema#integer> => "1"^^<http://www.w3.org/2001/XMLSchema#integer>
"x"^^<http://www.w3.org/2001/XMLSchema#string> => "x"
 => none
? => none
_:b => none
_:s65x1 => none
<a> => none
<e:a => none
<e:a b> => none
<e:a>. => none
<e:a>#c => none
"x => none
"x"y => none
"x"@ => none
"x"^^ => none
"x"^^<t> => none
"1"^^<http://www.w3.org/2001/XMLSchema#double> => none
"100000000000000000000"^^<http://www.w3.org/2001/XMLSchema#integer> => none
"0000-01-01"^^<http://www.w3.org/2001/XMLSchema#date> => none
"x"^^<http://www.w3.org/1999/02/22-rdf-syntax-ns#langString> => none
1 => none
true => none
a => none
"#;

fn term_outcome(alloc: Global, text: &str) -> Result<String, Fail> {
    let mut found = String::new(alloc);
    match named_term(alloc, text.as_bytes())? {
        Some(term) => write!(found, "{term}")?,
        None => write!(found, "none")?,
    }
    Ok(found)
}

#[test]
fn terms_alone(rt: HostRuntime) -> Result<(), Fail> {
    for row in TERMS.lines() {
        if let Some((text, wanted)) = row.split_once(" => ") {
            let found = term_outcome(rt.alloc(), text)?;
            same(&rt, row, found.as_str(), wanted);
        }
    }
    let wrong = named_term(rt.alloc(), b"<e:\xFF>")?;
    assert!(rt; wrong.is_none());
    Ok(())
}
