// Files that run in threads, and then again in the order that the threads made.
use crate::held::{LIMITS, block_of, replayed};
use collections::Sequence;
use outside::OpenGate;
use rdf_model::{Pattern, Term, Text};
use session_model::{Block, Command};
use session_player::text_of;
use session_threads::{EndedRun, run_new};
use std::alloc::{AllocError, Global};
use std::process::Abort;
use std::sync::Wait;
use std::test::*;
use std::thread::Threads;

// A command; a find asks for all triples of a predicate.
#[derive(Clone, Copy)]
enum Row {
    Begin,
    // Adds the triple of this subject, predicate and object, or removes it.
    Add(&'static str, &'static str, &'static str),
    Remove(&'static str, &'static str, &'static str),
    // Adds a triple about a blank node, or attaches another to that node.
    Give,
    Attach,
    Find(&'static str),
    BadAdd,
    Commit,
    Abort,
}

fn iri(alloc: Global, text: &str) -> Result<Term, AllocError> {
    Ok(Term::Iri(Text::new(alloc, text)?))
}

fn block(alloc: Global, iris: [&str; 3]) -> Result<Block, Fail> {
    let [subject, predicate, object] = iris;
    let text = format!(in alloc; "<{subject}> <{predicate}> <{object}> .\n")?;
    block_of(alloc, text.as_bytes())
}

fn command_of(alloc: Global, row: Row) -> Result<Command, Fail> {
    match row {
        Row::Begin => Ok(Command::Begin),
        Row::Add(subject, predicate, object) => {
            Ok(Command::Add(block(alloc, [subject, predicate, object])?))
        }
        Row::Remove(subject, predicate, object) => {
            Ok(Command::Remove(block(alloc, [subject, predicate, object])?))
        }
        Row::Give => Ok(Command::Add(block_of(alloc, b"_:s1x1 <e:p> <e:b> .\n")?)),
        Row::Attach => Ok(Command::Attach(block_of(alloc, b"_:s1x1 <e:q> <e:b> .\n")?)),
        Row::Find(predicate) => Ok(Command::Find(Pattern {
            subject: None,
            predicate: Some(iri(alloc, predicate)?),
            object: None,
        })),
        Row::BadAdd => Ok(Command::BadAdd { line: 1, kind: 2 }),
        Row::Commit => Ok(Command::Commit),
        Row::Abort => Ok(Command::Abort),
    }
}

fn commands_of(alloc: Global, rows: &[Row]) -> Result<Sequence<Command>, Fail> {
    let mut commands = Sequence::new(alloc);
    for row in rows {
        commands.push(command_of(alloc, *row)?)?;
    }
    Ok(commands)
}

// A transaction that reads what it overtakes or is overtaken by, one that only reads, and one that is dropped.
const ROWS: [Row; 14] = [
    Row::Begin,
    Row::Find("e:p"),
    // The node is there once any session gave it.
    Row::Attach,
    Row::Give,
    Row::Add("e:a", "e:p", "e:b"),
    Row::Add("e:c", "e:q", "e:b"),
    Row::Remove("e:c", "e:q", "e:b"),
    Row::BadAdd,
    Row::Commit,
    Row::Begin,
    Row::Begin,
    Row::Abort,
    Row::Begin,
    Row::Commit,
];

// So many files of these commands.
fn files_of(alloc: Global, count: u32) -> Result<Vec<Sequence<Command>>, Fail> {
    let mut files = Vec::new(alloc);
    for _i in 0..count {
        files.push(commands_of(alloc, &ROWS)?)?;
    }
    Ok(files)
}

// So many files run in threads; the order that they made, handed in, gives the same text.
fn run_and_replay<R: Threads + Wait + Abort + Sync>(
    rt: &R,
    alloc: Global,
    count: u32,
) -> Result<(), Fail> {
    let files = files_of(alloc, count)?;
    if files.len() > 64 {
        return Err(Fail::new("there are few files"));
    }
    let EndedRun {
        run,
        core: _,
        log: _,
    } = run_new(rt, alloc, LIMITS, files, &OpenGate)?;
    let text = text_of(alloc, &run)?;
    let again = replayed(rt, alloc, files_of(alloc, count)?, &run.order)?;
    assert_eq!(rt; text.as_str(), again.as_str());
    Ok(())
}

#[test]
fn three_files_in_three_threads(rt: HostRuntime) -> Result<(), Fail> {
    run_and_replay(&rt, rt.alloc(), 3)
}

#[test]
fn one_file_and_none(rt: HostRuntime) -> Result<(), Fail> {
    run_and_replay(&rt, rt.alloc(), 1)?;
    run_and_replay(&rt, rt.alloc(), 0)
}
