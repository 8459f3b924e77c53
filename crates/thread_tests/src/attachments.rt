// Triples about blank nodes that a block of another session gave out, which isn't committed.
ghost use Rattle.std.specs.Prelude.{◌≡◌, ◌<◌, IfOk};
ghost use Rattle.guard_store.specs.Callers.{IsSession};

use crate::held::triples_of;
use commit_core::{BlockMode, Core, Limits};
use disk::MemDisk;
use guard_store::{AttachFault, Committed, Session, Store};
use rdf_model::{Pattern, Term};
use shape_eval::Steps;
use std::alloc::Global;
use std::marker::Brand;
use std::process::Abort;
use std::sync::Wait;
use std::sync::ledger::{Blank, Ledger};
use std::test::*;
use std::thread::Threads;

const LIMITS: Limits = Limits {
    terms: 4,
    triples: 10,
    mode: BlockMode::All,
};

fn blank(session: u32, number: u32) -> Term {
    Term::Blank { session, number }
}

// The triples of a block to be attached, and what is told.
struct Row {
    block: &'static [u8],
    told: Told,
}

enum Told {
    Attached,
    Unknown(u32, u32),
    Full(usize),
}

fn is_told(answer: &Result<(), AttachFault>, told: &Told) -> bool {
    match (answer, told) {
        (Ok(()), Told::Attached) => true,
        (Err(AttachFault::Unknown { node }), Told::Unknown(session, number)) => {
            *node == blank(*session, *number)
        }
        (Err(AttachFault::Full { count }), Told::Full(wanted)) => count == wanted,
        _ => false,
    }
}

// Session 1 gave out its nodes 1 and 2, and the terms _:s1x1, e:p, e:a, _:s1x2 are named: no other may be.
const ROWS: [Row; 6] = [
    // Unknown comes before Full, and tells the least.
    Row {
        block: b"_:s2x1 <e:p> <e:b> .\n_:s1x3 <e:p> <e:c> .\n",
        told: Told::Unknown(1, 3),
    },
    Row {
        block: b"_:s1x1 <e:p> <e:b> .\n_:s1x2 <e:p> <e:c> .\n",
        told: Told::Full(6),
    },
    Row {
        block: b"_:s1x1 <e:p> <e:a> .\n_:s2x1 <e:p> <e:a> .\n",
        told: Told::Unknown(2, 1),
    },
    Row {
        block: b"_:s1x2 <e:p> <e:a> .\n_:s1x1 <e:p> <e:a> .\n",
        told: Told::Attached,
    },
    // An attachment gives no node out, and one that was refused named none.
    Row {
        block: b"_:s2x1 <e:p> <e:a> .\n_:s1x1 <e:p> <e:a> .\n",
        told: Told::Unknown(2, 1),
    },
    Row {
        block: b"_:s1x1 <e:p> <e:a> .\n_:s1x1 <e:p> <e:a> .\n",
        told: Told::Attached,
    },
];

fn attach<R: Wait + Abort>(
    rt: &R,
    alloc: Global,
    store: &Store<MemDisk>,
    session: Session<MemDisk>,
    row: &Row,
) -> Result<Session<MemDisk>, Fail>
    requires { IsSession store.now session }
    ensures { IfOk result (IsSession store.now) }
{
    let triples = triples_of(alloc, row.block)?;
    let (session, answer) = store.stage_attach(rt, session, triples.as_slice());
    assert!(rt; is_told(&answer, &row.told));
    Ok(session)
}

// Session 1 stages a block with two blank nodes.
fn give<R: Wait + Abort>(
    rt: &R,
    alloc: Global,
    store: &Store<MemDisk>,
    session: Session<MemDisk>,
) -> Result<Session<MemDisk>, Fail>
    requires { IsSession store.now session }
    ensures { IfOk result (IsSession store.now) }
{
    let (session, begun) = store.begin(rt, session);
    assert_eq!(rt; begun, Ok(0));
    let triples = triples_of(alloc, b"_:s1x1 <e:p> <e:a> .\n_:s1x2 <e:p> <e:a> .\n")?;
    let (session, added) = store.stage_add(rt, session, triples.as_slice());
    assert_eq!(rt; added, Ok(()));
    Ok(session)
}

// Session 2 attaches, without a transaction and within one.
fn attach_all<R: Wait + Abort>(
    rt: &R,
    alloc: Global,
    store: &Store<MemDisk>,
    session: Session<MemDisk>,
) -> Result<Session<MemDisk>, Fail>
    requires { IsSession store.now session }
    ensures { IfOk result (IsSession store.now) }
{
    let triples = triples_of(alloc, b"_:s1x1 <e:p> <e:a> .\n")?;
    let (session, answer) = store.stage_attach(rt, session, triples.as_slice());
    assert!(rt; matches!(answer, Err(AttachFault::NoTransaction)));
    let (session, begun) = store.begin(rt, session);
    assert_eq!(rt; begun, Ok(0));
    let mut session = session;
    for row in &ROWS {
        session = attach(rt, alloc, store, session, row)?;
    }
    Ok(session)
}

const ALL: Pattern = Pattern {
    subject: None,
    predicate: None,
    object: None,
};

fn run<L: Ledger, R: Threads + Wait + Abort + Sync>(
    rt: &R,
    alloc: Global,
    blank: Blank,
) -> Result<(), Fail>
    requires name { blank.name ≡ L.name }
    requires parts { blank.parts ≡ L.parts }
    requires some { 0 < L.parts }
{
    let mut steps = Steps::<L>::begin(blank);
    let (store, keeper) = Store::<MemDisk>::new(alloc, LIMITS)?;
    let Ok((keeper, first)) = store.open(rt, keeper) else {
        return Err(Fail::new("a session is opened"));
    };
    let Ok((keeper, second)) = store.open(rt, keeper) else {
        return Err(Fail::new("another session is opened"));
    };
    let first = give(rt, alloc, &store, first)?;
    let mut second = attach_all(rt, alloc, &store, second)?;
    assert_eq!(rt; second.find(alloc, &ALL)?.len(), 2);
    let (second, done) = store.commit(rt, second, &mut steps);
    assert!(rt;
        matches!(
            &done,
            Ok(Committed::Done {
                number: 1,
                again: _
            })
        )
    );
    let keeper = store.meet(keeper, second);
    let keeper = store.meet(keeper, first);
    let (core, _) = store.close(keeper);
    assert_eq!(rt; core.triples(), 2);
    let Ok(events) = core.into_events() else {
        return Err(Fail::new("there is memory for the events"));
    };
    let Ok(again) = Core::replay(rt, alloc, LIMITS, events, &mut steps) else {
        return Err(Fail::new("each event is a step"));
    };
    assert_eq!(rt; again.triples(), 2);
    Ok(())
}

#[test]
fn nodes_of_another_session_are_attached_to(rt: HostRuntime) -> Result<(), Fail> {
    run::<Brand, HostRuntime>(&rt, rt.alloc(), Blank::new(1))
}
