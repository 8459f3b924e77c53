// Two sessions in each order of their events: session 1 begins, finds a predicate, adds a triple and commits; session 2
// commits two triples, the second of that predicate.
ghost use Rattle.std.specs.Prelude.{◌≤◌, IfOk, length};

use crate::finds::{Row, commands_of};
use crate::replay::{Answer, Ask, FIRST, Iris, SECOND, event_of, first_no_step};
use collections::Sequence;
use commit_core::{BlockMode, Event, Limits};
use history_reader::read_history;
use session_model::Command;
use session_player::{HistoryFault, replay_all, text_of};
use std::alloc::{AllocError, Global};
use std::test::Fail;
use std::thread::Threads;

const LIMITS: Limits = Limits {
    terms: 100,
    triples: 100,
    mode: BlockMode::All,
};

const OWN: Iris = Iris {
    subject: "e:a",
    predicate: "e:q",
    object: "e:b",
};

const OTHERS: u64 = 9;

// After how many of session 2's nine events those of session 1 come; its opening is the first of all.
#[derive(Clone, Copy)]
struct Order {
    begin: u64,
    name: u64,
    head: u64,
    commit: u64,
}

// How many of session 2's commits are among its first events.
fn commits_among(events: u64) -> u64
    ensures { result ≤ 2 }
{
    match events {
        0..=4 => 0,
        5..=8 => 1,
        _ => 2,
    }
}

// Whether session 2 commits a triple of the predicate between session 1's find and its commit.
fn is_overtaken(order: Order) -> bool {
    order.begin < OTHERS && order.commit == OTHERS
}

// The version before an event of session 2.
fn version_before(order: Order, event: u64) -> u64
    ensures { result ≤ 3 }
{
    if order.commit <= event && !is_overtaken(order) {
        commits_among(event) + 1
    } else {
        commits_among(event)
    }
}

// An event of session 2.
fn other_row(order: Order, event: u64) -> (u32, Ask, Answer) {
    let version = version_before(order, event);
    match event {
        0 => (2, Ask::Open, Answer::Session(2)),
        1 | 5 => (2, Ask::Begin, Answer::Version(version)),
        2 => (2, Ask::Name(FIRST), Answer::Named),
        6 => (2, Ask::Name(SECOND), Answer::Named),
        3 | 7 => (2, Ask::Head, Answer::Version(version)),
        4 => (
            2,
            Ask::Commit(version_before(order, 1), None, FIRST),
            Answer::Done(version + 1),
        ),
        _ => (
            2,
            Ask::Commit(version_before(order, 5), None, SECOND),
            Answer::Done(version + 1),
        ),
    }
}

// The commit of session 1.
fn own_commit(order: Order) -> (u32, Ask, Answer) {
    let answer = if is_overtaken(order) {
        Answer::Conflict(2, SECOND)
    } else {
        Answer::Done(commits_among(order.commit) + 1)
    };
    let base = commits_among(order.begin);
    (1, Ask::Commit(base, Some("e:p"), OWN), answer)
}

// Adds the events of session 1 that come after so many of session 2's.
fn push_own(
    rows: &mut Vec<(u32, Ask, Answer)>,
    order: Order,
    others: u64,
) -> Result<(), AllocError> {
    let version = commits_among(others);
    if order.begin == others {
        rows.push((1, Ask::Begin, Answer::Version(version)))?;
    }
    if order.name == others {
        rows.push((1, Ask::Name(OWN), Answer::Named))?;
    }
    if order.head == others {
        rows.push((1, Ask::Head, Answer::Version(version)))?;
    }
    if order.commit == others {
        rows.push(own_commit(order))?;
    }
    Ok(())
}

// All events in their order.
fn rows_of(alloc: Global, order: Order) -> Result<Vec<(u32, Ask, Answer)>, AllocError> {
    let mut rows = vec![in alloc; (1, Ask::Open, Answer::Session(1))]?;
    for event in 0..OTHERS {
        push_own(&mut rows, order, event)?;
        rows.push(other_row(order, event))?;
    }
    push_own(&mut rows, order, OTHERS)?;
    Ok(rows)
}

fn events_of(alloc: Global, rows: &[(u32, Ask, Answer)]) -> Result<Vec<Event>, AllocError> {
    let mut events = Vec::new(alloc);
    for row in rows {
        events.push(event_of(alloc, *row)?)?;
    }
    Ok(events)
}

// The last line of what is printed.
fn history_of(alloc: Global, rows: &[(u32, Ask, Answer)]) -> Result<String, AllocError> {
    let mut line = String::from_str(alloc, "history")?;
    for row in rows {
        let (session, _, _) = *row;
        write!(line, " {session}")?;
    }
    line.push('\n')?;
    Ok(line)
}

// What session 1 prints.
fn own_text(alloc: Global, order: Order) -> Result<String, AllocError> {
    let base = commits_among(order.begin);
    let found = if base == 2 {
        "find 1\n<e:x> <e:p> <e:y> ."
    } else {
        "find 0"
    };
    if is_overtaken(order) {
        let end = "conflict 2 <e:x> <e:p> <e:y> .";
        return Ok(format!(in alloc; "session 1\nbegin {base}\n{found}\nadd 1\n{end}\n")?);
    }
    let end = commits_among(order.commit) + 1;
    Ok(format!(in alloc; "session 1\nbegin {base}\n{found}\nadd 1\ncommit {end}\n")?)
}

// What session 2 prints.
fn other_text(alloc: Global, order: Order) -> Result<String, AllocError> {
    let mut text = String::from_str(alloc, "session 2\n")?;
    for (begin, commit) in [(1, 4), (5, 8)] {
        let base = version_before(order, begin);
        let end = version_before(order, commit) + 1;
        write!(text, "begin {base}\nadd 1\ncommit {end}\n")?;
    }
    Ok(text)
}

// The commands of the two sessions.
fn sessions(alloc: Global) -> Result<Vec<Sequence<Command>>, Fail>
    ensures { IfOk result (λ files. length files.items ≤ 64) }
{
    let own = [
        Row::Begin,
        Row::Find("e:p"),
        Row::Add("e:a", "e:q", "e:b"),
        Row::Commit,
    ];
    let other = [
        Row::Begin,
        Row::Add("e:x", "e:r", "e:y"),
        Row::Commit,
        Row::Begin,
        Row::Add("e:x", "e:p", "e:y"),
        Row::Commit,
    ];
    let own = commands_of(alloc, &own)?;
    let other = commands_of(alloc, &other)?;
    Ok(vec![in alloc; own, other]?)
}

// What the sessions print in the order of a history's text; nothing where it isn't valid.
fn replayed<T: Threads + Sync>(
    rt: &T,
    alloc: Global,
    files: Vec<Sequence<Command>>,
    history: &str,
) -> Result<String, AllocError>
    requires { length files.items ≤ 64 }
{
    let Some(places) = read_history(alloc, history.as_bytes())? else {
        return Ok(String::new(alloc));
    };
    match replay_all(rt, alloc, LIMITS, files, places.as_slice()) {
        Ok(run) => text_of(alloc, &run),
        Err(HistoryFault::Place(_)) => Ok(String::new(alloc)),
        Err(HistoryFault::Memory) => Err(AllocError),
    }
}

// Whether in this order the store's events are steps, and the sessions print what those answer.
fn is_played<T: Threads + Sync>(rt: &T, alloc: Global, order: Order) -> Result<bool, Fail> {
    let rows = rows_of(alloc, order)?;
    let events = events_of(alloc, &rows)?;
    if first_no_step(rt, alloc, LIMITS, events)? != 0 {
        return Ok(false);
    }
    let history = history_of(alloc, &rows)?;
    let own = own_text(alloc, order)?;
    let other = other_text(alloc, order)?;
    let want = format!(in alloc; "{own}{other}{history}")?;
    let text = replayed(rt, alloc, sessions(alloc)?, &history)?;
    Ok(text.as_str() == want.as_str())
}

#[test]
fn sessions_are_answered_by_the_store_in_every_order(rt: HostRuntime) -> Result<(), Fail> {
    let alloc = rt.alloc();
    for begin in 0..=OTHERS {
        for name in begin..=OTHERS {
            for head in name..=OTHERS {
                for commit in head..=OTHERS {
                    let order = Order {
                        begin,
                        name,
                        head,
                        commit,
                    };
                    let played = is_played(&rt, alloc, order)?;
                    assert!(rt; played, "{begin} {name} {head} {commit}");
                }
            }
        }
    }
    Ok(())
}
