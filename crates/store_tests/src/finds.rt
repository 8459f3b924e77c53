// What finds give and record, in runs of commands.
use collections::Sequence;
use commit_core::{BlockMode, Limits};
use rdf_model::{Pattern, Term, Text};
use session_model::{Block, Command};
use session_player::{run_all, text_of};
use std::alloc::{AllocError, Global};
use std::test::Fail;
use std::thread::Threads;

// A command; a find asks for all triples of a predicate.
#[derive(Clone, Copy)]
pub enum Row {
    Begin,
    // Adds the triple of this subject, predicate and object.
    Add(&'static str, &'static str, &'static str),
    Find(&'static str),
    Commit,
    Abort,
}

fn iri(alloc: Global, text: &str) -> Result<Term, AllocError> {
    Ok(Term::Iri(Text::new(alloc, text)?))
}

// The block of one triple.
fn block(alloc: Global, iris: [&str; 3]) -> Result<Block, Fail> {
    let [subject, predicate, object] = iris;
    let text = format!(in alloc; "<{subject}> <{predicate}> <{object}> .\n")?;
    if text.len() > 1000 {
        return Err(Fail::new("the triple is short"));
    }
    match Block::read_named(alloc, text.as_bytes()) {
        Ok(block) => Ok(block),
        Err(_) => Err(Fail::new("the triple is read")),
    }
}

fn command_of(alloc: Global, row: Row) -> Result<Command, Fail> {
    match row {
        Row::Begin => Ok(Command::Begin),
        Row::Add(subject, predicate, object) => {
            Ok(Command::Add(block(alloc, [subject, predicate, object])?))
        }
        Row::Find(predicate) => Ok(Command::Find(Pattern {
            subject: None,
            predicate: Some(iri(alloc, predicate)?),
            object: None,
        })),
        Row::Commit => Ok(Command::Commit),
        Row::Abort => Ok(Command::Abort),
    }
}

pub fn commands_of(alloc: Global, rows: &[Row]) -> Result<Sequence<Command>, Fail> {
    let mut commands = Sequence::new(alloc);
    for row in rows {
        commands.push(command_of(alloc, *row)?)?;
    }
    Ok(commands)
}

// What the session of these commands prints.
fn printed<T: Threads + Sync>(rt: &T, alloc: Global, rows: &[Row]) -> Result<String, Fail> {
    let limits = Limits {
        terms: 100,
        triples: 100,
        mode: BlockMode::All,
    };
    let commands = commands_of(alloc, rows)?;
    let run = run_all(rt, alloc, limits, vec![in alloc; commands]?)?;
    Ok(text_of(alloc, &run)?)
}

#[test]
fn an_abort_forgets(rt: HostRuntime) -> Result<(), Fail> {
    let text = printed(
        &rt,
        rt.alloc(),
        &[
            Row::Begin,
            Row::Add("e:b", "e:p", "e:c"),
            Row::Add("e:a", "e:p", "e:b"),
            Row::Add("e:a", "e:q", "e:b"),
            Row::Find("e:p"),
            Row::Abort,
            Row::Find("e:p"),
            Row::Abort,
            Row::Begin,
            Row::Find("e:p"),
            Row::Add("e:a", "e:p", "e:c"),
            Row::Commit,
            Row::Begin,
            Row::Find("e:p"),
        ],
    )?;
    let want = "session 1\nbegin 0\nadd 1\nadd 1\nadd 1\n\
        find 2\n<e:a> <e:p> <e:b> .\n<e:b> <e:p> <e:c> .\n\
        abort\nno transaction\nno transaction\nbegin 0\nfind 0\nadd 1\ncommit 1\n\
        begin 1\nfind 1\n<e:a> <e:p> <e:c> .\n\
        history 1 1 1 1 1 1 1 1 1 1\n";
    assert_eq!(rt; text.as_str(), want);
    Ok(())
}
