//! Texts of Turtle, read (Turtle 1.1 sections 2 and 6).

use crate::tests::rows::same;
use collections::Sequence;
use ntriples_text::{read as read_lines, write};
use rdf_model::Triple;
use std::alloc::{AllocError, Global};
use std::process::Abort;
use std::test::Fail;
use turtle_reader::{ReadFault, read};

const RDF: &str = "http://www.w3.org/1999/02/22-rdf-syntax-ns#";

const XSD: &str = "http://www.w3.org/2001/XMLSchema#";

// What was read, as it is written, with the next number of a blank node; or the refusal, by the number of its kind, with
// the line.
fn text_of_found(
    alloc: Global,
    found: Result<Sequence<Triple>, ReadFault>,
    next: u32,
) -> Result<String, AllocError> {
    let mut text = String::new(alloc);
    match found {
        Ok(triples) => {
            let written = write(alloc, triples.as_slice())?;
            write!(text, "{written}next {next}")?;
        }
        Err(ReadFault::Refusal { line, kind }) => {
            let number = kind.number();
            write!(text, "{number} in {line}")?;
        }
        Err(ReadFault::Memory) => text.push_str("memory")?,
    }
    Ok(text)
}

// The first blank node is number 1 of session 1.
fn outcome(rt: &impl Abort, alloc: Global, text: &[u8]) -> Result<String, Fail> {
    assert!(rt; text.len() < 10000);
    let mut next = 1;
    let found = read(alloc, 1, &mut next, text);
    Ok(text_of_found(alloc, found, next)?)
}

fn outcome_of_lines(rt: &impl Abort, alloc: Global, text: &[u8]) -> Result<String, Fail> {
    assert!(rt; text.len() < 10000);
    let mut next = 1;
    let found = read_lines(alloc, 1, &mut next, text);
    Ok(text_of_found(alloc, found, next)?)
}

// The outcome in one line, with the two vocabularies by their prefixes.
fn in_one_line(alloc: Global, outcome: &str) -> Result<String, AllocError> {
    let lines = outcome.replace(alloc, RDF, "rdf:")?;
    let lines = lines.replace(alloc, XSD, "xsd:")?;
    lines.replace(alloc, " .\n", " . ")
}

// The text that a row stands for: `¶` is LF and `§` is CR, and the two vocabularies are written by their prefixes.
fn text_of_row(alloc: Global, row: &str) -> Result<String, AllocError> {
    let text = row.replace(alloc, "¶", "\n")?;
    let text = text.replace(alloc, "§", "\r")?;
    let text = text.replace(
        alloc,
        "<rdf:",
        "<http://www.w3.org/1999/02/22-rdf-syntax-ns#",
    )?;
    text.replace(alloc, "<xsd:", "<http://www.w3.org/2001/XMLSchema#")
}

// A row is a text, ` => ` and its outcome.
fn expect_row(rt: &impl Abort, alloc: Global, row: &str) -> Result<(), Fail> {
    let Some((text, wanted)) = row.split_once(" => ") else {
        same(rt, row, "no row", "");
        return Ok(());
    };
    let text = text_of_row(alloc, text)?;
    let found = outcome(rt, alloc, text.as_bytes())?;
    let found = in_one_line(alloc, found.as_str())?;
    same(rt, row, found.as_str(), wanted);
    Ok(())
}

fn expect_rows(rt: &impl Abort, alloc: Global, rows: &str) -> Result<(), Fail> {
    for row in rows.lines() {
        expect_row(rt, alloc, row)?;
    }
    Ok(())
}

const STATEMENTS: &str = r#" => next 1
# c => next 1
<e:a><e:p><e:b>. => <e:a> <e:p> <e:b> . next 1
<e:b> <e:p> <e:o> . <e:a> <e:p> <e:o> . <e:b> <e:p> <e:o> . => <e:a> <e:p> <e:o> . <e:b> <e:p> <e:o> . next 1
<e:a> # c ¶ <e:p> # d ¶ <e:b> . => <e:a> <e:p> <e:b> . next 1
# c§<e:a> <e:p> <e:b> . => <e:a> <e:p> <e:b> . next 1
<e:a> <e:p> <e:b>, <e:c> ; <e:q> <e:d> . => <e:a> <e:p> <e:b> . <e:a> <e:p> <e:c> . <e:a> <e:q> <e:d> . next 1
<e:a> <e:p> <e:b> ; ; <e:q> <e:d> ;; . => <e:a> <e:p> <e:b> . <e:a> <e:q> <e:d> . next 1
<e:a> a <e:C> . => <e:a> <rdf:type> <e:C> . next 1
<e:a> <e:p> <e:b> , . => 3 in 1
<e:a> ; <e:p> <e:b> . => 3 in 1
<e:a> <e:p> . => 3 in 1
<e:a> <e:p> <e:b> ; <e:q> . => 3 in 1
<e:a> <e:p> <e:b> ; 1 . => 3 in 1
<e:a> <e:p> <e:b> <e:c> . => 3 in 1
<e:a> <e:p> <e:b> . . => 3 in 1
a <e:p> <e:b> . => 3 in 1
<e:a> true <e:b> . => 3 in 1
<e:a> <e:p> a . => 3 in 1
<e:a> A <e:b> . => 2 in 1"#;

#[test]
fn statements(rt: HostRuntime) -> Result<(), Fail> {
    expect_rows(&rt, rt.alloc(), STATEMENTS)
}

const DIRECTIVES: &str = r#"@prefix e: <e:> . e:a e:p e:b . => <e:a> <e:p> <e:b> . next 1
prefix e: <e:> pReFiX f: <f:> e:a f:p e:b . => <e:a> <f:p> <e:b> . next 1
@prefix e: <e:x/> . e:a <e:p> <e:o> . PREFIX e: <e:y/> e:a <e:p> <e:o> . => <e:x/a> <e:p> <e:o> . <e:y/a> <e:p> <e:o> . next 1
@prefix : <e:> . :a : :b . => <e:a> <e:> <e:b> . next 1
@prefix e: <e:> . e:%41\~ e:x:y e:a.b. => <e:%41~> <e:x:y> <e:a.b> . next 1
@base <e:/x/y> . <z> <?q> <#f> . => <e:/x/z> <e:/x/y?q> <e:/x/y#f> . next 1
BASE <e:/x/y> <../z> <e:p> <> . => <e:/z> <e:p> <e:/x/y> . next 1
@base <e:/x/> . base <y/> <z> <e:p> <//h> . => <e:/x/y/z> <e:p> <e://h> . next 1
@base <e:/b/> . @prefix p: <c/> . @base <e:/d/> . p:x <p> <e:o> . => <e:/b/c/x> <e:/d/p> <e:o> . next 1
@prefix e: <e:>¶e:a e:p e:b . => 3 in 2
PREFIX e: <e:>¶. => 3 in 2
@base <e:>¶<e:a> <e:p> <e:b> . => 3 in 2
BASE <e:>¶. => 3 in 2
@PREFIX e: <e:> . => 2 in 1
@prefixe: <e:> . => 2 in 1
@prefix e:a <e:> . => 3 in 1
@prefix e <e:> . => 2 in 1
@prefix e: e:a . => 3 in 1
@base e:a . => 3 in 1
@base <y/> . => 5 in 1
@prefix e: <y/> . => 5 in 1
@prefix e: <e:> . E:a <e:p> <e:o> . => 4 in 1
@en <e:p> <e:o> . => 2 in 1"#;

#[test]
fn directives(rt: HostRuntime) -> Result<(), Fail> {
    expect_rows(&rt, rt.alloc(), DIRECTIVES)
}

const BLANK_NODES: &str =
    r#"_:x <e:p> _:y . _:y <e:p> _:x . => _:s1x1 <e:p> _:s1x2 . _:s1x2 <e:p> _:s1x1 . next 3
[] <e:p> [ # c ¶ ] . => _:s1x1 <e:p> _:s1x2 . next 3
_:x <e:p> [ <e:q> _:y ] , _:y . => _:s1x1 <e:p> _:s1x2 . _:s1x1 <e:p> _:s1x3 . _:s1x2 <e:q> _:s1x3 . next 4
[ <e:p> <e:b> ; ] . => _:s1x1 <e:p> <e:b> . next 2
[ <e:p> <e:b> ] <e:q> <e:c> ; . => _:s1x1 <e:p> <e:b> . _:s1x1 <e:q> <e:c> . next 2
[] . => 3 in 1
[] <e:p> . => 3 in 1
[ ; <e:p> <e:b> ] . => 3 in 1
[ <e:p> ] . => 3 in 1
[ <e:p> <e:b> . => 3 in 1
[ <e:p> <e:b> ) . => 3 in 1
[ [ ] <e:p> <e:b> ] . => 13 in 1
[ _:x <e:p> <e:b> ] . => 13 in 1
<e:a>¶[ ] <e:b> . => 13 in 2
<e:a> _:p <e:b> . => 13 in 1
<e:a> <e:p> <e:b> ; _:q <e:c> . => 13 in 1
<e:a> <e:p> <e:b> ; [ ] . => 13 in 1
<e:a> <e:p> <e:b> [ ] . => 3 in 1
<e:a> <e:p> <e:b> _:c . => 3 in 1
[ <e:p> <e:b> ] [ ] <e:c> . => 13 in 1
[ <e:p> <e:b> ] _:x . => 13 in 1
( ) [ ] <e:c> . => 13 in 1
<e:a> <e:p> () . => <e:a> <e:p> <rdf:nil> . next 1
<e:a> <e:p> ( [ ] 1 ) . => _:s1x1 <rdf:first> _:s1x2 . _:s1x1 <rdf:rest> _:s1x3 . _:s1x3 <rdf:first> "1"^^<xsd:integer> . _:s1x3 <rdf:rest> <rdf:nil> . <e:a> <e:p> _:s1x1 . next 4
( <e:x> ) <e:p> <e:o> . => _:s1x1 <e:p> <e:o> . _:s1x1 <rdf:first> <e:x> . _:s1x1 <rdf:rest> <rdf:nil> . next 2
( () ( _:x ) ) <e:p> () . => _:s1x1 <e:p> <rdf:nil> . _:s1x1 <rdf:first> <rdf:nil> . _:s1x1 <rdf:rest> _:s1x2 . _:s1x2 <rdf:first> _:s1x3 . _:s1x2 <rdf:rest> <rdf:nil> . _:s1x3 <rdf:first> _:s1x4 . _:s1x3 <rdf:rest> <rdf:nil> . next 5
<e:a> <e:p> ( [ <e:q> ( 1 ) ] <e:z> ) . => _:s1x1 <rdf:first> _:s1x2 . _:s1x1 <rdf:rest> _:s1x4 . _:s1x2 <e:q> _:s1x3 . _:s1x3 <rdf:first> "1"^^<xsd:integer> . _:s1x3 <rdf:rest> <rdf:nil> . _:s1x4 <rdf:first> <e:z> . _:s1x4 <rdf:rest> <rdf:nil> . <e:a> <e:p> _:s1x1 . next 5
( _:x _:y ) <e:p> _:x . => _:s1x1 <e:p> _:s1x2 . _:s1x1 <rdf:first> _:s1x2 . _:s1x1 <rdf:rest> _:s1x3 . _:s1x3 <rdf:first> _:s1x4 . _:s1x3 <rdf:rest> <rdf:nil> . next 5
( 1 ) . => 3 in 1
<e:a> <e:p> ( 1 , 2 ) . => 3 in 1
<e:a> <e:p> ( 1 ; ) . => 3 in 1
<e:a> <e:p> ( 1 . => 3 in 1
<e:a> <e:p> ( 1 ] . => 3 in 1
<e:a> () <e:b> . => 3 in 1"#;

#[test]
fn blank_nodes(rt: HostRuntime) -> Result<(), Fail> {
    expect_rows(&rt, rt.alloc(), BLANK_NODES)
}

const LITERALS: &str =
    r#"<e:a> <e:p> 1 , -1 , +01 , 1.5 , -.5 , true , false . => <e:a> <e:p> "+01"^^<xsd:integer> . <e:a> <e:p> "-.5"^^<xsd:decimal> . <e:a> <e:p> "-1"^^<xsd:integer> . <e:a> <e:p> "1"^^<xsd:integer> . <e:a> <e:p> "1.5"^^<xsd:decimal> . <e:a> <e:p> "false"^^<xsd:boolean> . <e:a> <e:p> "true"^^<xsd:boolean> . next 1
<e:a> <e:p> 1. => <e:a> <e:p> "1"^^<xsd:integer> . next 1
<e:a> <e:p> 00099999999999999999999 . => <e:a> <e:p> "00099999999999999999999"^^<xsd:integer> . next 1
<e:a> <e:p> 100000000000000000000 . => 8 in 1
<e:a> <e:p>¶.0000000000000000001 . => 8 in 2
<e:a> <e:p> 1.e0 . => 7 in 1
<e:a> <e:p> 1E-2 . => 7 in 1
<e:a> <e:p> "1"^^<xsd:double> . => 7 in 1
<e:a> <e:p> "1"¶^^¶<xsd:float> . => 7 in 1
<e:a> <e:p> "0000-01-01"^^<xsd:date> . => 9 in 1
<e:a> <e:p> ¶"x"^^<rdf:langString> . => 10 in 2
<e:a> 1e0 <e:b> . => 3 in 1
<e:a> <e:p> True . => 2 in 1
<e:a> <e:p> + . => 2 in 1
<e:a> <e:p> + => 14 in 1
<e:a> <e:p> +. => 14 in 1
<e:a> <e:p> 1 2 . => 3 in 1
1 <e:p> <e:b> . => 3 in 1
"x" <e:p> <e:b> . => 3 in 1
<e:a> "x" <e:b> . => 3 in 1
<e:a> <e:p> "x" , 'y' , """z""" , '''w''' . => <e:a> <e:p> "w" . <e:a> <e:p> "x" . <e:a> <e:p> "y" . <e:a> <e:p> "z" . next 1
<e:a> <e:p> "" , '' , """""" , '''''' . => <e:a> <e:p> "" . next 1
<e:a> <e:p> """a"b""c""" . => <e:a> <e:p> "a\"b\"\"c" . next 1
<e:a> <e:p> '''a'b''c''' . => <e:a> <e:p> "a'b''c" . next 1
<e:a> <e:p>¶"""a"""" . => 14 in 2
<e:a> <e:p> """a¶b""" . => <e:a> <e:p> "a\nb" . next 1
<e:a> <e:p> '''a§b''' . => <e:a> <e:p> "a\rb" . next 1
<e:a> <e:p> "a¶b" . => 2 in 1
<e:a> <e:p> 'a§b' . => 2 in 1
<e:a> <e:p> "\n\r\"\'\\\u0041\U00000042" . => <e:a> <e:p> "\n\r\"'\\AB" . next 1
<e:a> <e:p> '\n\r\"\'\\\u0041\U00000042' . => <e:a> <e:p> "\n\r\"'\\AB" . next 1
<e:a> <e:p> """\n\r\"\'\\\u0041\U00000042""" . => <e:a> <e:p> "\n\r\"'\\AB" . next 1
<e:a> <e:p> '''\n\r\"\'\\\u0041\U00000042''' . => <e:a> <e:p> "\n\r\"'\\AB" . next 1
<e:a> <e:p> "\a" . => 6 in 1
<e:a> <e:p> '''¶\uD800''' . => 6 in 1
<e:\n> <e:p> <e:b> . => 6 in 1
<\u0065:a> <e:p> <e:b> . => <e:a> <e:p> <e:b> . next 1
<e:a> <e:p> "x"@EN-gb , 'x'@en-GB . => <e:a> <e:p> "x"@en-gb . next 1
<e:a> <e:p> "x" @de-1996 . => <e:a> <e:p> "x"@de-1996 . next 1
<e:a> <e:p> "x"¶@prefix e: <e:> . => 3 in 2
<e:a> <e:p> "x"@en- . => 2 in 1
<e:a> <e:p> "x"@en@fr . => 2 in 1
<e:a> <e:p> <e:b> @en . => 2 in 1
<e:a> <e:p> "x"^^<e:t> , "x"^^<xsd:string> . => <e:a> <e:p> "x"^^<e:t> . <e:a> <e:p> "x" . next 1
@prefix e: <e:> . <e:a> <e:p> "x" ^^ e:t . => <e:a> <e:p> "x"^^<e:t> . next 1
@base <e:/x/> . <e:a> <e:p> "x"^^<t> . => <e:a> <e:p> "x"^^<e:/x/t> . next 1
<e:a> <e:p> "x"^^"y" . => 3 in 1
<e:a> <e:p> "x"^^[] . => 3 in 1
<e:a> <e:p> "x"^^a . => 3 in 1
<e:a> <e:p> "x"^<e:t> . => 2 in 1
<e:a> <e:p> "1"^^x:t . => 4 in 1
<e:a> <e:p> "1"^^<t> . => 5 in 1
<e:a> <e:p> 1^^<e:t> . => 3 in 1"#;

#[test]
fn literals(rt: HostRuntime) -> Result<(), Fail> {
    expect_rows(&rt, rt.alloc(), LITERALS)
}

const REFUSED: &str = r#"x:a <e:p> <e:b> . => 4 in 1
¶¶<e:a> <e:p> x:b . => 4 in 3
<a> <e:p> <e:b> . => 5 in 1
<e:a> <e:p> x:b ! => 4 in 1
<e:a> <e:p>¶! => 2 in 2
<e:a> <e:p>¶ => 14 in 2
<e:a> <e:p> <e:b>¶¶ => 14 in 3
<e:a> <e:p> "x¶y => 2 in 1
<e:a> <e:p> """x¶y => 14 in 2
§¶<e:a> <e:p> ! => 2 in 2
§§<e:a> <e:p> ! => 2 in 1
@ba => 14 in 1
@prefix => 14 in 1
@prefix e: => 14 in 1
PREFIX e: <e:> => next 1
<e:a> <e:p> <e:b => 14 in 1
<e:a> <e:p> _: => 14 in 1
<e:a> <e:p> "x"^^ => 14 in 1
<e:a> <e:p> "\u00 => 14 in 1
<e:a> <e:p> [ => 14 in 1
<e:a> <e:p> ( => 14 in 1
<e:a> <e:p> ( 1 => 14 in 1
<e:a> <e:p> fals => 14 in 1
<e:a> <e:p> fals. => 14 in 1
<e:a> <e:p> fals ! => 2 in 1"#;

#[test]
fn refusals(rt: HostRuntime) -> Result<(), Fail> {
    expect_rows(&rt, rt.alloc(), REFUSED)?;
    let wrong: [(&[u8], &str); 3] = [
        (b"! \xFF", "1 in 1"),
        (b"<e:a> <e:p>\n\xC3(", "1 in 2"),
        (b"\n\n\"\xE2\x82", "1 in 3"),
    ];
    for (bytes, wanted) in wrong {
        let found = outcome(&rt, rt.alloc(), bytes)?;
        same(&rt, "bytes", found.as_str(), wanted);
    }
    Ok(())
}

const CUT: &[u8] = b"@base <http://a/b/c/d;p?q> .\n<e:x> <e:p> <../g> .\n";

// What each beginning of the text gives that has from so many bytes up to so many: a directive and a statement end with their
// dot.
const BEGINNINGS: [(usize, usize, &str); 6] = [
    (0, 0, "next 1"),
    (1, 27, "14 in 1"),
    (28, 29, "next 1"),
    (30, 48, "14 in 2"),
    (49, 49, "<e:x> <e:p> <http://a/b/g> .\nnext 1"),
    (50, 50, "<e:x> <e:p> <http://a/b/g> .\nnext 1"),
];

#[test]
fn cut_after_each_byte(rt: HostRuntime) -> Result<(), Fail> {
    assert_eq!(rt; CUT.len(), 50);
    for (first, last, wanted) in BEGINNINGS {
        for length in first..last + 1 {
            let found = outcome(&rt, rt.alloc(), &CUT[..length])?;
            same(&rt, "a cut text", found.as_str(), wanted);
        }
    }
    Ok(())
}

// The text of a row: what stands before brackets, what opens each, what stands within, what closes each, and what stands
// behind. So many times they are opened.
fn nested(rt: &impl Abort, alloc: Global, row: &str, count: usize) -> Result<String, AllocError> {
    let mut parts = row.split('|');
    let mut text = String::from_str(alloc, parts.next().expect(rt, "a text"))?;
    let opening = parts.next().expect(rt, "an opening");
    for _ in 0..count {
        text.push_str(opening)?;
    }
    text.push_str(parts.next().expect(rt, "a text"))?;
    let closing = parts.next().expect(rt, "a closing");
    for _ in 0..count {
        text.push_str(closing)?;
    }
    text.push_str(parts.next().expect(rt, "a text"))?;
    Ok(text)
}

fn expect_nested(
    rt: &impl Abort,
    alloc: Global,
    row: &str,
    count: usize,
    wanted: &str,
) -> Result<(), Fail> {
    let text = nested(rt, alloc, row, count)?;
    let found = outcome(rt, alloc, text.as_bytes())?;
    assert!(rt; found.ends_with(wanted), "{row} {count}: {found}");
    Ok(())
}

// Each row: brackets, how often they may be opened, and the next number of a blank node then. Not more than 256 may be open
// at once.
const NESTED: [(&str, usize, &str); 12] = [
    ("<e:a> <e:p> |(|1|)| .", 256, "next 257"),
    ("<e:a> <e:p> |[ <e:p> |1|]| .", 256, "next 257"),
    ("<e:a> <e:p> |( [ <e:p> |1|] )| .", 128, "next 257"),
    ("<e:a> <e:p> |[ <e:p> (|1|) ]| .", 128, "next 257"),
    ("<e:a> <e:p> |(|[]|)| .", 255, "next 257"),
    ("<e:a> <e:p> |[ <e:p> |()|]| .", 255, "next 256"),
    ("[] <e:p> |(|1|)| .", 256, "next 258"),
    ("[ a 1 ] <e:p> |[ <e:p> |1|]| .", 256, "next 258"),
    ("[ <e:p> |(|1|)|] .", 255, "next 257"),
    ("<e:a> <e:p> 1 ; <e:p> |(|1|)| .", 256, "next 257"),
    (
        "<e:a> <e:p> ( ( 1 ) 2 ) , |[ <e:p> |1|]| .",
        256,
        "next 260",
    ),
    ("|(|1|)| <e:p> 1 .", 256, "next 257"),
];

#[test]
fn open_brackets(rt: HostRuntime) -> Result<(), Fail> {
    for (row, most, next) in NESTED {
        expect_nested(&rt, rt.alloc(), row, most, next)?;
        expect_nested(&rt, rt.alloc(), row, most + 1, "11 in 1")?;
    }
    Ok(())
}

// Texts of N-Triples, which are Turtle too.
const IN_BOTH: &str = r#"_:b <e:p> <e:o> . # c
<e:a> <e:p> "x\n\u00E9"@EN .
_:x <e:p> "1"^^<xsd:integer> .¶_:x <e:p> _:y .¶_:y <e:p> _:x .¶
<e:a> <e:p> <o> .
<e:a> <e:p> "1"^^<xsd:float> .
<e:a> _:p <e:o> .
<e:a> <e:p>"#;

#[test]
fn the_same_in_both(rt: HostRuntime) -> Result<(), Fail> {
    for row in IN_BOTH.lines() {
        let text = text_of_row(rt.alloc(), row)?;
        let found = outcome(&rt, rt.alloc(), text.as_bytes())?;
        let wanted = outcome_of_lines(&rt, rt.alloc(), text.as_bytes())?;
        same(&rt, row, found.as_str(), wanted.as_str());
    }
    Ok(())
}
