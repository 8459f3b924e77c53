// Histories, replayed. `0` stands for one whose events all are steps, else the first that is none.
ghost use Rattle.std.specs.Prelude.{◌≡◌, ◌<◌, ◌≤◌};

use collections::Sequence;
use commit_core::{Again, BlockMode, Core, Event, Limits, NameKind, ReplayFault, Transaction};
use numbered_lists::Net;
use rdf_model::{Change, Pattern, Term, Text, Triple};
use shape_eval::Steps;
use std::alloc::{AllocError, Global};
use std::marker::Brand;
use std::sync::ledger::{Blank, Ledger};
use std::test::Fail;
use std::thread::Threads;
use store_model::{Action, Reply};

const LIMITS: Limits = Limits {
    terms: 8,
    triples: 2,
    mode: BlockMode::All,
};

// The IRIs of a triple.
#[derive(Clone, Copy)]
pub struct Iris {
    pub subject: &'static str,
    pub predicate: &'static str,
    pub object: &'static str,
}

// The IRIs of a triple with this subject, predicate and object.
fn three(subject: &'static str, predicate: &'static str, object: &'static str) -> Iris {
    Iris {
        subject,
        predicate,
        object,
    }
}

// What a session does.
#[derive(Clone, Copy)]
pub enum Ask {
    Open,
    Begin,
    Name(Iris),
    Head,
    // Adds one triple, from a version on, after a find of this predicate.
    Commit(u64, Option<&'static str>, Iris),
    Void,
}

// What it is answered.
#[derive(Clone, Copy)]
pub enum Answer {
    Session(u32),
    SessionsFull,
    Version(u64),
    Named,
    Full(usize),
    Done(u64),
    Conflict(u64, Iris),
    FullTriples(usize),
    Nothing,
}

fn iri(alloc: Global, text: &str) -> Result<Term, AllocError> {
    Ok(Term::Iri(Text::new(alloc, text)?))
}

fn triple(alloc: Global, iris: Iris) -> Result<Triple, AllocError> {
    Ok(Triple {
        subject: iri(alloc, iris.subject)?,
        predicate: iri(alloc, iris.predicate)?,
        object: iri(alloc, iris.object)?,
    })
}

fn terms(alloc: Global, iris: Iris) -> Result<Sequence<Term>, AllocError> {
    let mut terms = Sequence::new(alloc);
    for text in [iris.subject, iris.predicate, iris.object] {
        terms.push(iri(alloc, text)?)?;
    }
    Ok(terms)
}

fn finds(alloc: Global, predicate: Option<&str>) -> Result<Sequence<Pattern>, AllocError> {
    let mut finds = Sequence::new(alloc);
    if let Some(predicate) = predicate {
        finds.push(Pattern {
            subject: None,
            predicate: Some(iri(alloc, predicate)?),
            object: None,
        })?;
    }
    Ok(finds)
}

fn additions(alloc: Global, iris: Iris) -> Result<Net, AllocError> {
    let mut net = Net::new(alloc);
    net.push(alloc, Change::Add(triple(alloc, iris)?))?;
    Ok(net)
}

fn action_of(alloc: Global, ask: Ask) -> Result<Action, AllocError> {
    match ask {
        Ask::Open => Ok(Action::Open),
        Ask::Begin => Ok(Action::Begin),
        Ask::Name(iris) => Ok(Action::Name(NameKind::Fresh, terms(alloc, iris)?)),
        Ask::Head => Ok(Action::Head),
        Ask::Commit(base, predicate, iris) => Ok(Action::Commit(Transaction {
            base,
            net: additions(alloc, iris)?,
            staged: None,
            finds: finds(alloc, predicate)?,
            verdict: None,
        })),
        Ask::Void => Ok(Action::Void),
    }
}

fn reply_of(alloc: Global, answer: Answer) -> Result<Reply, AllocError> {
    match answer {
        Answer::Session(session) => Ok(Reply::Session(session)),
        Answer::SessionsFull => Ok(Reply::SessionsFull),
        Answer::Version(version) => Ok(Reply::Version(version)),
        Answer::Named => Ok(Reply::Named),
        Answer::Full(count) => Ok(Reply::Full(count)),
        Answer::Done(number) => Ok(Reply::Done(number, Again::NoVerdict)),
        Answer::Conflict(commit, iris) => Ok(Reply::Conflict(commit, triple(alloc, iris)?)),
        Answer::FullTriples(count) => Ok(Reply::FullTriples(count)),
        Answer::Nothing => Ok(Reply::Nothing),
    }
}

pub fn event_of(alloc: Global, row: (u32, Ask, Answer)) -> Result<Event, AllocError> {
    let (session, ask, answer) = row;
    let action = action_of(alloc, ask)?;
    Ok(Event {
        session,
        action,
        reply: reply_of(alloc, answer)?,
    })
}

// So many openings in a row, and these events.
fn events_of(
    alloc: Global,
    opened: u32,
    rows: &[(u32, Ask, Answer)],
) -> Result<Vec<Event>, AllocError> {
    let mut events = Vec::new(alloc);
    for session in 1..=opened {
        events.push(event_of(alloc, (session, Ask::Open, Answer::Session(session)))?)?;
    }
    for row in rows {
        events.push(event_of(alloc, *row)?)?;
    }
    Ok(events)
}

fn replayed<L: Ledger, T: Threads + Sync>(
    rt: &T,
    alloc: Global,
    limits: Limits,
    events: Vec<Event>,
    blank: Blank,
) -> Result<usize, AllocError>
    requires limits { limits.terms ≤ 2000000 }
    requires name { blank.name ≡ L.name }
    requires parts { blank.parts ≡ L.parts }
    requires some { 0 < L.parts }
{
    let mut steps = Steps::<L>::begin(blank);
    match Core::replay(rt, alloc, limits, events, &mut steps) {
        Ok(core) => {
            let _ = core;
            Ok(0)
        }
        Err(ReplayFault::At(place)) => Ok(place),
        Err(ReplayFault::Memory) => Err(AllocError),
    }
}

/// The first of the events that is no step within these limits, from 1; 0 where all are.
pub fn first_no_step<T: Threads + Sync>(
    rt: &T,
    alloc: Global,
    limits: Limits,
    events: Vec<Event>,
) -> Result<usize, AllocError>
    requires { limits.terms ≤ 2000000 }
{
    replayed::<Brand, T>(rt, alloc, limits, events, Blank::new(1))
}

fn first_wrong<T: Threads + Sync>(
    rt: &T,
    alloc: Global,
    opened: u32,
    rows: &[(u32, Ask, Answer)],
) -> Result<usize, AllocError> {
    first_no_step(rt, alloc, LIMITS, events_of(alloc, opened, rows)?)
}

pub const FIRST: Iris = Iris {
    subject: "e:x",
    predicate: "e:r",
    object: "e:y",
};

pub const SECOND: Iris = Iris {
    subject: "e:x",
    predicate: "e:p",
    object: "e:y",
};

const OWN: Iris = Iris {
    subject: "e:x",
    predicate: "e:r",
    object: "e:x",
};

// Session 1 begins and finds a predicate; session 2 commits twice, the second time a triple of e:p;
// session 1 commits. With the reply to the second commit and to the last.
fn overtaken(
    found: Option<&'static str>,
    second: Answer,
    last: Answer,
) -> [(u32, Ask, Answer); 13] {
    [
        (1, Ask::Begin, Answer::Version(0)),
        (2, Ask::Begin, Answer::Version(0)),
        (2, Ask::Name(FIRST), Answer::Named),
        (2, Ask::Head, Answer::Version(0)),
        (2, Ask::Commit(0, None, FIRST), Answer::Done(1)),
        (2, Ask::Begin, Answer::Version(1)),
        (2, Ask::Name(SECOND), Answer::Named),
        (2, Ask::Head, Answer::Version(1)),
        (2, Ask::Commit(1, None, SECOND), second),
        (1, Ask::Name(OWN), Answer::Named),
        (1, Ask::Head, Answer::Version(2)),
        (1, Ask::Commit(0, found, OWN), last),
        (1, Ask::Begin, Answer::Version(2)),
    ]
}

#[test]
fn commits_are_overtaken_by_what_was_found(rt: HostRuntime) -> Result<(), Fail> {
    for (found, second, last, want) in [
        (Some("e:p"), Answer::Done(2), Answer::Conflict(2, SECOND), 0),
        (
            Some("e:p"),
            Answer::Done(3),
            Answer::Conflict(2, SECOND),
            11,
        ),
        (Some("e:p"), Answer::Done(2), Answer::Conflict(1, FIRST), 14),
        (Some("e:r"), Answer::Done(2), Answer::Conflict(1, FIRST), 0),
        // The graph has two triples at most.
        (None, Answer::Done(2), Answer::FullTriples(3), 0),
        (None, Answer::Done(2), Answer::FullTriples(2), 14),
    ] {
        let rows = overtaken(found, second, last);
        assert_eq!(rt; first_wrong(&rt, rt.alloc(), 2, &rows)?, want);
    }
    Ok(())
}

#[test]
fn terms_are_named_up_to_the_limit(rt: HostRuntime) -> Result<(), Fail> {
    for (last, want) in [
        (Answer::Full(9), 0),
        (Answer::Full(8), 4),
        (Answer::Named, 4),
    ] {
        let rows = [
            (1, Ask::Name(three("e:a", "e:b", "e:c")), Answer::Named),
            (1, Ask::Name(three("e:d", "e:e", "e:f")), Answer::Named),
            (1, Ask::Name(three("e:g", "e:h", "e:i")), last),
        ];
        assert_eq!(rt; first_wrong(&rt, rt.alloc(), 1, &rows)?, want);
    }
    Ok(())
}

#[test]
fn sessions_take_their_turns(rt: HostRuntime) -> Result<(), Fail> {
    for (opened, session, ask, answer, want) in [
        (0, 2, Ask::Open, Answer::Session(2), 1),
        (0, 1, Ask::Begin, Answer::Version(0), 1),
        (1, 1, Ask::Open, Answer::Session(1), 2),
        (1, 1, Ask::Begin, Answer::Version(0), 0),
        (1, 1, Ask::Begin, Answer::Version(1), 2),
        (1, 2, Ask::Begin, Answer::Version(0), 2),
        (63, 64, Ask::Open, Answer::Session(64), 0),
        (64, 65, Ask::Open, Answer::Session(65), 65),
        (64, 0, Ask::Open, Answer::SessionsFull, 0),
        (0, 0, Ask::Void, Answer::Nothing, 0),
        (0, 1, Ask::Void, Answer::Nothing, 1),
        (1, 1, Ask::Head, Answer::Named, 2),
        // Its terms aren't named.
        (1, 1, Ask::Commit(0, None, OWN), Answer::Done(1), 2),
    ] {
        let rows = [(session, ask, answer)];
        assert_eq!(rt; first_wrong(&rt, rt.alloc(), opened, &rows)?, want);
    }
    Ok(())
}
