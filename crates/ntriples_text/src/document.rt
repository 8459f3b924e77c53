//! Texts of N-Triples 1.1, read line by line.
ghost use Rattle.std.specs.Prelude.{◌≡◌, ℕ, ◌+◌, ◌<◌, ◌≤◌, ◌^◌, ◌∷◌, Ok, [], List, Result, length, IfOk, MatchResult, OnOk, OnErr};
ghost use Rattle.std.specs.Str.{chars};
ghost use Rattle.rdf_model.specs.Graphs.{with_each};
ghost use Rattle.rdf_lexical.specs.declared.refusal.RefusalKind.{RefusalKind as KindData};
ghost use Rattle.ntriples_text.specs.declared.statement.Statement.{Statement as StatementData};
ghost use Rattle.ntriples_text.specs.Document;
ghost use Rattle.ntriples_text.specs.Document.{lines, lines_from, with_line, with_statement, numbered, reads, reads_by, reads_named};
ghost use Rattle.ntriples_text.specs.Grammar;
ghost use Rattle.ntriples_text.specs.Progress.{going_on};
ghost use Rattle.rdf_lexical.specs.Refusals.{Refuses};

use crate::grammar::{read_alone, read_line};
use crate::labels::Labels;
use crate::line_fault::LineFault;
use crate::numbering::Numbering;
use crate::statement::{LabelKind, Statement};
use crate::text_line::{number_after, split_line};
use collections::Sequence;
use rdf_lexical::{CharSlice, ReadFault, RefusalKind};
use rdf_model::{Term, Triple};
use std::alloc::{AllocError, Global};
use triple_table::TripleTable;

// Adds the triple of a statement.
fn add_statement(
    numbering: &mut Numbering,
    table: &mut TripleTable,
    statement: Statement,
) -> Result<(), ReadFault>
    requires { numbering.old.first + length numbering.old.labels + 1 < 2 ^ 32 }
    ensures added { (more : Result (List StatementData) (ℕ × KindData)) → let rest = going_on numbering.old.session numbering.old.first table.old numbering.old.labels (with_statement statement more) in
        MatchResult result (λ _. rest ≡ going_on numbering.old.session numbering.old.first table.new numbering.new.labels more) (λ fault. fault ≡ ReadFault.Memory) }
    ensures same { OnOk result ((numbering.new.session ≡ numbering.old.session) × (numbering.new.first ≡ numbering.old.first)) }
    ensures room { OnOk result (length numbering.new.labels ≤ length numbering.old.labels + 2) }
{
    numbering.push_triple(table, statement)?;
    Ok(())
}

// Adds the triple of a line, if it has one.
fn add_line(
    alloc: Global,
    labels: LabelKind,
    number: u64,
    line: &CharSlice<'_>,
    numbering: &mut Numbering,
    table: &mut TripleTable,
) -> Result<(), ReadFault>
    requires { numbering.old.first + length numbering.old.labels + length line.now < 2 ^ 32 }
    ensures added { (more : Result (List StatementData) (ℕ × KindData)) → let rest = going_on numbering.old.session numbering.old.first table.old numbering.old.labels (with_line number (Grammar.line labels line.now) more) in
        MatchResult result (λ _. rest ≡ going_on numbering.old.session numbering.old.first table.new numbering.new.labels more) (λ fault. Refuses fault rest) }
    ensures same { OnOk result ((numbering.new.session ≡ numbering.old.session) × (numbering.new.first ≡ numbering.old.first)) }
    ensures room { OnOk result (length numbering.new.labels ≤ length numbering.old.labels + length line.now) }
{
    match read_line(alloc, labels, line) {
        Ok(Some(statement)) => add_statement(numbering, table, statement),
        Ok(None) => Ok(()),
        Err(LineFault::Refused(kind)) => Err(ReadFault::Refusal { line: number, kind }),
        Err(LineFault::Memory) => Err(ReadFault::Memory),
    }
}

// Adds the triple of a line, if it has one. The number of the next line comes back.
fn add_characters(
    alloc: Global,
    labels: LabelKind,
    number: u64,
    line: &CharSlice<'_>,
    numbering: &mut Numbering,
    table: &mut TripleTable,
) -> Result<u64, ReadFault>
    requires line { 0 < length line.now }
    requires number { number < 2 ^ 63 }
    requires room { numbering.old.first + length numbering.old.labels + length line.now < 2 ^ 32 }
    ensures added { (more : List (List ℕ)) → let rest = going_on numbering.old.session numbering.old.first table.old numbering.old.labels (lines_from labels number (line.now ∷ more)) in
        MatchResult result (λ next. rest ≡ going_on numbering.old.session numbering.old.first table.new numbering.new.labels (lines_from labels next more)) (λ fault. Refuses fault rest) }
    ensures next { IfOk result (λ next. next ≤ number + 1) }
    ensures same { OnOk result ((numbering.new.session ≡ numbering.old.session) × (numbering.new.first ≡ numbering.old.first)) }
    ensures room { OnOk result (length numbering.new.labels ≤ length numbering.old.labels + length line.now) }
{
    add_line(alloc, labels, number, line, numbering, table)?;
    Ok(number_after(number, line))
}

// Adds the triple of a line of a text, if it has one. The number of the next line comes back.
fn add_text(
    alloc: Global,
    labels: LabelKind,
    number: u64,
    line: &str,
    numbering: &mut Numbering,
    table: &mut TripleTable,
) -> Result<u64, ReadFault>
    requires line { 0 < length line.now }
    requires number { number < 2 ^ 63 }
    requires room { numbering.old.first + length numbering.old.labels + length line.now < 2 ^ 32 }
    ensures added { (more : List (List ℕ)) → let rest = going_on numbering.old.session numbering.old.first table.old numbering.old.labels (lines_from labels number (chars line.now ∷ more)) in
        MatchResult result (λ next. rest ≡ going_on numbering.old.session numbering.old.first table.new numbering.new.labels (lines_from labels next more)) (λ fault. Refuses fault rest) }
    ensures next { IfOk result (λ next. next ≤ number + 1) }
    ensures same { OnOk result ((numbering.new.session ≡ numbering.old.session) × (numbering.new.first ≡ numbering.old.first)) }
    ensures room { OnOk result (length numbering.new.labels ≤ length numbering.old.labels + length line.now) }
{
    let characters = CharSlice::of_text(line);
    add_characters(alloc, labels, number, &characters, numbering, table)
}

// The triples of the lines of a text, in their order there. Its labels are added to the numbering.
fn read_lines(
    alloc: Global,
    labels: LabelKind,
    text: &str,
    numbering: &mut Numbering,
) -> Result<TripleTable, ReadFault>
    requires labels { numbering.old.labels ≡ [] }
    requires room { numbering.old.first + length text.now < 2 ^ 32 }
    ensures read { let reading = going_on numbering.old.session numbering.old.first [] [] (lines_from labels 1 (lines (chars text.now))) in
        MatchResult result (λ table. reading ≡ Ok (table, numbering.new.labels)) (λ fault. Refuses fault reading) }
    ensures room { OnOk result (length numbering.new.labels ≤ length text.now) }
    ensures same { OnOk result (numbering.new.first ≡ numbering.old.first) }
{
    let mut table = TripleTable::new(alloc);
    let mut rest = text;
    let mut number = 1;
    while !rest.is_empty() {
        let (line, after) = split_line(rest);
        number = add_text(alloc, labels, number, line, numbering, &mut table)?;
        rest = after;
    }
    Ok(table)
}

// The triples of a text in their order there. Blank nodes are numbered from `next` on.
fn read_text(
    alloc: Global,
    labels: LabelKind,
    session: u32,
    next: &mut u32,
    text: &str,
) -> Result<TripleTable, ReadFault>
    requires { next.old + length text.now < 2 ^ 32 }
    ensures reads { let reading = numbered session next.old (lines_from labels 1 (lines (chars text.now))) in
        MatchResult result (λ table. reading ≡ Ok (with_each [] table, next.new)) (λ fault. Refuses fault reading) }
    ensures unchanged { OnErr result (next.new ≡ next.old) }
    ensures room { (next.old ≤ next.new) × (next.new ≤ next.old + length text.now) }
{
    let mut numbering = Numbering {
        session,
        first: *next,
        labels: Labels::new(alloc),
    };
    let table = read_lines(alloc, labels, text, &mut numbering)?;
    *next += numbering.labels.len() as u32;
    Ok(table)
}

// The line of the byte at a place.
fn line_of(bytes: &[u8], at: usize) -> u64
    requires at { at ≤ length bytes.now }
    requires length { length bytes.now < 2 ^ 32 }
    ensures { result ≡ Document.line_of bytes.now at }
{
    let mut line = 1;
    for byte in &bytes[..at] {
        if *byte == b'\n' {
            line += 1;
        }
    }
    line
}

// The triples of a text with labels of this kind, in their order there, or its refusal.
fn read_by(
    alloc: Global,
    labels: LabelKind,
    session: u32,
    next: &mut u32,
    bytes: &[u8],
) -> Result<TripleTable, ReadFault>
    requires { next.old + length bytes.now < 2 ^ 32 }
    ensures reads { let reading = reads_by labels bytes.now session next.old in
        MatchResult result (λ table. reading ≡ Ok (with_each [] table, next.new)) (λ fault. Refuses fault reading) }
    ensures unchanged { OnErr result (next.new ≡ next.old) }
    ensures room { (next.old ≤ next.new) × (next.new ≤ next.old + length bytes.now) }
{
    match std::str::from_utf8(bytes) {
        Ok(text) => read_text(alloc, labels, session, next, text),
        Err(error) => Err(ReadFault::Refusal {
            line: line_of(bytes, error.valid_up_to()),
            kind: RefusalKind::NotUtf8,
        }),
    }
}

/// The triples of a text of N-Triples 1.1 by the numbers of their terms, in the order in which they stand there. All else is as
/// `read` has it.
pub fn read_numbered(
    alloc: Global,
    session: u32,
    next: &mut u32,
    bytes: &[u8],
) -> Result<TripleTable, ReadFault>
    requires session { (1 ≤ session) × (session ≤ 64) }
    requires next { 1 ≤ next.old }
    requires room { next.old + length bytes.now < 2 ^ 32 }
    ensures reads { let reading = reads bytes.now session next.old in
        MatchResult result (λ table. reading ≡ Ok (with_each [] table, next.new)) (λ fault. Refuses fault reading) }
    ensures unchanged { OnErr result (next.new ≡ next.old) }
    ensures room { (next.old ≤ next.new) × (next.new ≤ next.old + length bytes.now) }
{
    read_by(alloc, LabelKind::OfText, session, next, bytes)
}

/// The triples of a text of N-Triples 1.1, each once, in their order. Blank nodes belong to the
/// session, 1 to 64, and are numbered from `next`, which is then the next number that is free, and
/// has grown by no more than the text is long; an error leaves it as it was.
///
/// The error is the refusal that counts, with its line, or memory.
pub fn read(
    alloc: Global,
    session: u32,
    next: &mut u32,
    bytes: &[u8],
) -> Result<Sequence<Triple>, ReadFault>
    requires session { (1 ≤ session) × (session ≤ 64) }
    requires next { 1 ≤ next.old }
    requires room { next.old + length bytes.now < 2 ^ 32 }
    ensures reads { let reading = reads bytes.now session next.old in
        MatchResult result (λ triples. reading ≡ Ok (triples, next.new)) (λ fault. Refuses fault reading) }
    ensures unchanged { OnErr result (next.new ≡ next.old) }
    ensures room { (next.old ≤ next.new) × (next.new ≤ next.old + length bytes.now) }
{
    let mut free = *next;
    let table = read_numbered(alloc, session, &mut free, bytes)?;
    let sorted = table.into_sorted()?;
    *next = free;
    Ok(sorted)
}

/// The triples of a text of N-Triples 1.1 by the numbers of their terms, in the order in which they stand there. All else is as
/// `read_named` has it.
pub fn read_named_numbered(alloc: Global, bytes: &[u8]) -> Result<TripleTable, ReadFault>
    requires { 1 + length bytes.now < 2 ^ 32 }
    ensures { let reading = reads_named bytes.now in
        MatchResult result (λ table. reading ≡ Ok (with_each [] table)) (λ fault. Refuses fault reading) }
{
    let mut next = 1;
    read_by(alloc, LabelKind::OfStore, 1, &mut next, bytes)
}

/// The triples of a text of N-Triples 1.1, each once, in their order. Its labels are those of the
/// store's blank nodes: `_:sIxN` is number N of session I, where I is from 1 to 64 and N from 1 to
/// 4294967295, both decimal without a leading zero.
///
/// The error is the refusal that counts, with its line, or memory; any other label is refused.
pub fn read_named(alloc: Global, bytes: &[u8]) -> Result<Sequence<Triple>, ReadFault>
    requires { 1 + length bytes.now < 2 ^ 32 }
    ensures { let reading = reads_named bytes.now in
        MatchResult result (λ triples. reading ≡ Ok triples) (λ fault. Refuses fault reading) }
{
    let table = read_named_numbered(alloc, bytes)?;
    let sorted = table.into_sorted()?;
    Ok(sorted)
}

// The term that the text is alone.
fn read_term(alloc: Global, text: &str) -> Result<Option<Term>, AllocError>
    ensures { IfOk result (λ term. term ≡ Grammar.alone (chars text.now)) }
{
    read_alone(alloc, &CharSlice::of_text(text))
}

/// The term that the bytes are, as N-Triples 1.1 writes an object, with nothing before or behind
/// it but blanks before it; blank nodes have the labels of the store. `None` where they are no such
/// term.
pub fn named_term(alloc: Global, bytes: &[u8]) -> Result<Option<Term>, AllocError>
    ensures { IfOk result (λ term. term ≡ Document.named_term bytes.now) }
{
    match std::str::from_utf8(bytes) {
        Ok(text) => read_term(alloc, text),
        Err(_) => Ok(None),
    }
}
