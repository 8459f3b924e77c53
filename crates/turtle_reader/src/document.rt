//! Texts of Turtle 1.1, read.
ghost use Rattle.std.specs.Prelude.{◌≡◌, ◌+◌, ◌<◌, ◌≤◌, ◌^◌, [], length, Ok, IfOk, OnOk, OnErr, MatchResult};
ghost use Rattle.std.specs.Str.{chars};
ghost use Rattle.rdf_lexical.specs.Refusals.{Refuses};
ghost use Rattle.rdf_model.specs.Graphs.{with_each};
ghost use Rattle.turtle_reader.specs.Document;
ghost use Rattle.turtle_reader.specs.Document.{text_read, reads};
ghost use Rattle.turtle_reader.specs.Grammar;
ghost use Rattle.turtle_reader.specs.Progress.{IsReady, need};

use crate::grammar::read_statements;
use crate::source::{Reading, Source};
use crate::state::State;
use crate::table::NameTable;
use collections::Sequence;
use rdf_lexical::{ReadFault, RefusalKind};
use rdf_model::Triple;
use std::alloc::Global;
use triple_table::TripleTable;
use turtle_lex::{TextPlace, next_token};

// How many brackets may be open within one that is: 256 may be open at once.
const LEVELS: usize = 255;

// Before the first token.
fn opening(text: &Source<'_>, session: u32, first: u32) -> State
    ensures opening { result ≡ Document.opening text.now session first }
    ensures ready { IsReady text.now result }
    ensures need { need text.now result ≤ first + length text.now }
{
    State {
        ahead: next_token(text.characters(), TextPlace::start(), false),
        prefixes: NameTable::new(text.alloc()),
        base: None,
        labels: NameTable::new(text.alloc()),
        session,
        next: first,
        triples: TripleTable::new(text.alloc()),
    }
}

// The whole of a text: the state behind its last statement.
fn read_document(text: &Source<'_>, session: u32, first: u32) -> Reading<State>
    requires { first + length text.now < 2 ^ 32 }
    ensures reads { let reading = Grammar.turtle_doc text.now 255 (Document.opening text.now session first) in
        MatchResult result (λ state. reading ≡ Ok (tt, state)) (λ fault. Refuses fault reading) }
    ensures room { IfOk result (λ state. (first ≤ state.next) × (state.next ≤ first + length text.now)) }
{
    let mut state = opening(text, session, first);
    read_statements(text, &mut state, LEVELS)?;
    Ok(state)
}

// What a state has found: the triples, and the next number of a blank node.
fn found_in(state: State) -> (TripleTable, u32)
    ensures { result ≡ (state.triples, state.next) }
{
    let State { triples, next, .. } = state;
    (triples, next)
}

// The triples of the characters in their order there, and the next number of a blank node.
fn read_source(text: &Source<'_>, session: u32, first: u32) -> Reading<(TripleTable, u32)>
    requires { first + length text.now < 2 ^ 32 }
    ensures reads { let reading = Document.found_in_text text.now session first in
        MatchResult result (λ found. reading ≡ Ok found) (λ fault. Refuses fault reading) }
    ensures room { IfOk result (λ found. (first ≤ found.1) × (found.1 ≤ first + length text.now)) }
{
    let state = read_document(text, session, first)?;
    Ok(found_in(state))
}

// The triples of a text in their order there, and the next number of a blank node.
fn read_characters(
    alloc: Global,
    session: u32,
    first: u32,
    text: &str,
) -> Reading<(TripleTable, u32)>
    requires { first + length text.now < 2 ^ 32 }
    ensures reads { let reading = Document.found_in_text (chars text.now) session first in
        MatchResult result (λ found. reading ≡ Ok found) (λ fault. Refuses fault reading) }
    ensures room { IfOk result (λ found. (first ≤ found.1) × (found.1 ≤ first + length text.now)) }
{
    read_source(&Source::new(alloc, text), session, first)
}

// The triples of a text in their order there. Blank nodes are numbered from `next` on.
fn read_text(alloc: Global, session: u32, next: &mut u32, text: &str) -> Reading<TripleTable>
    requires { next.old + length text.now < 2 ^ 32 }
    ensures reads { let reading = text_read (chars text.now) session next.old in
        MatchResult result (λ table. reading ≡ Ok (with_each [] table, next.new)) (λ fault. Refuses fault reading) }
    ensures unchanged { OnErr result (next.new ≡ next.old) }
    ensures room { (next.old ≤ next.new) × (next.new ≤ next.old + length text.now) }
{
    let (triples, free) = read_characters(alloc, session, *next, text)?;
    *next = free;
    Ok(triples)
}

// The line of the byte at a place.
fn line_of(bytes: &[u8], at: usize) -> u64
    requires at { at ≤ length bytes.now }
    requires length { length bytes.now < 2 ^ 32 }
    ensures { result ≡ Document.line_of bytes.now at }
{
    let mut line = 1;
    for byte in &bytes[..at] {
        if *byte == b'\n' {
            line += 1;
        }
    }
    line
}

/// The triples of a text of Turtle 1.1 by the numbers of their terms, in the order in which they were
/// found. All else is as `read` has it.
pub fn read_numbered(
    alloc: Global,
    session: u32,
    next: &mut u32,
    bytes: &[u8],
) -> Result<TripleTable, ReadFault>
    requires session { (1 ≤ session) × (session ≤ 64) }
    requires next { 1 ≤ next.old }
    requires room { next.old + length bytes.now < 2 ^ 32 }
    ensures reads { let reading = reads bytes.now session next.old in
        MatchResult result (λ table. reading ≡ Ok (with_each [] table, next.new)) (λ fault. Refuses fault reading) }
    ensures unchanged { OnErr result (next.new ≡ next.old) }
    ensures room { (next.old ≤ next.new) × (next.new ≤ next.old + length bytes.now) }
{
    match std::str::from_utf8(bytes) {
        Ok(text) => read_text(alloc, session, next, text),
        Err(error) => Err(ReadFault::Refusal {
            line: line_of(bytes, error.valid_up_to()),
            kind: RefusalKind::NotUtf8,
        }),
    }
}

/// The triples of a text of Turtle 1.1, each once, in their order. Blank nodes belong to the
/// session, 1 to 64, and are numbered from `next`, which is then the next number that is free, and
/// has grown by no more than the text is long; an error leaves it as it was.
///
/// The error is the refusal that counts, the first from left to right, with its line; or memory.
pub fn read(
    alloc: Global,
    session: u32,
    next: &mut u32,
    bytes: &[u8],
) -> Result<Sequence<Triple>, ReadFault>
    requires session { (1 ≤ session) × (session ≤ 64) }
    requires next { 1 ≤ next.old }
    requires room { next.old + length bytes.now < 2 ^ 32 }
    ensures reads { let reading = reads bytes.now session next.old in
        MatchResult result (λ triples. reading ≡ Ok (triples, next.new)) (λ fault. Refuses fault reading) }
    ensures unchanged { OnErr result (next.new ≡ next.old) }
    ensures room { (next.old ≤ next.new) × (next.new ≤ next.old + length bytes.now) }
{
    let mut free = *next;
    let table = read_numbered(alloc, session, &mut free, bytes)?;
    let sorted = table.into_sorted()?;
    *next = free;
    Ok(sorted)
}
