// A store that is asked by hand, and its history replayed.
ghost use Rattle.std.specs.Prelude.{◌≡◌, ◌<◌, IfOk};
ghost use Rattle.std.specs.List.{AllByRecursion};
ghost use Rattle.ntriples_text.specs.Laws.{IsReadable, IsStored};
ghost use Rattle.record_text.specs.Records.{IsReadableGraph};
ghost use Rattle.guard_store.specs.Callers.{IsKeeper, IsSession};

use crate::held::{self, STAGES, commands_of, triples_of};
use commit_core::{Again, BlockMode, Core, Limits};
use disk::MemDisk;
use guard_store::{
    BeginFault, CheckFault, CommitFault, Committed, HeadFault, Keeper, OpenFault, ReportFault,
    Session, StageFault, Store,
};
use rdf_model::{Pattern, Term, Text, Triple};
use session_model::Command;
use shape_eval::Steps;
use shapes_graph::ShapesGraph;
use std::alloc::{AllocError, Global};
use std::marker::Brand;
use std::process::Abort;
use std::sync::Wait;
use std::sync::ledger::{Blank, Ledger};
use std::test::*;
use std::thread::Threads;

const LIMITS: Limits = Limits {
    terms: 3,
    triples: 10,
    mode: BlockMode::All,
};

fn iri(alloc: Global, text: &str) -> Result<Term, AllocError> {
    Ok(Term::Iri(Text::new(alloc, text)?))
}

fn triple(alloc: Global, subject: &str, object: &str) -> Result<Triple, AllocError> {
    Ok(Triple {
        subject: iri(alloc, subject)?,
        predicate: iri(alloc, "e:p")?,
        object: iri(alloc, object)?,
    })
}

const ALL: Pattern = Pattern {
    subject: None,
    predicate: None,
    object: None,
};

// What a session does by itself where no transaction is open, and within one.
fn ask_locally<R: Wait + Abort>(
    rt: &R,
    alloc: Global,
    store: &Store<MemDisk>,
    session: Session<MemDisk>,
) -> Result<Session<MemDisk>, Fail>
    requires { IsSession store.now session }
    ensures { IfOk result (IsSession store.now) }
{
    let triples = triples_of(alloc, b"<e:a> <e:p> <e:b> .\n")?;
    let (session, added) = store.stage_add(rt, session, triples.as_slice());
    assert_eq!(rt; added, Err(StageFault::NoTransaction));
    let (session, removed) = store.stage_remove(rt, session, triples.as_slice());
    assert_eq!(rt; removed, Err(StageFault::NoTransaction));
    let (session, head) = store.head(rt, session);
    assert_eq!(rt; head, Err(HeadFault::NoTransaction));
    let (session, begun) = store.begin(rt, session);
    assert_eq!(rt; begun, Ok(0));
    let (session, again) = store.begin(rt, session);
    assert_eq!(rt; again, Err(BeginFault::AlreadyOpen));
    Ok(session)
}

// A transaction that adds a triple, which it then finds, and one block more that would name too many terms.
fn add_one<R: Wait + Abort>(
    rt: &R,
    alloc: Global,
    store: &Store<MemDisk>,
    session: Session<MemDisk>,
) -> Result<Session<MemDisk>, Fail>
    requires { IsSession store.now session }
    ensures { IfOk result (IsSession store.now) }
{
    let triples = triples_of(alloc, b"<e:a> <e:p> <e:b> .\n")?;
    let (session, added) = store.stage_add(rt, session, triples.as_slice());
    assert_eq!(rt; added, Ok(()));
    let others = triples_of(alloc, b"<e:c> <e:p> <e:d> .\n")?;
    let (session, full) = store.stage_add(rt, session, others.as_slice());
    assert_eq!(rt; full, Err(StageFault::Full { count: 5 }));
    let (session, head) = store.head(rt, session);
    assert_eq!(rt; head, Ok(0));
    Ok(session)
}

// Whether the answer is that of an accepted commit with this number.
fn is_done(answer: &Result<Committed, CommitFault>, wanted: u64) -> bool {
    matches!(answer, Ok(Committed::Done { number, again: _ }) if *number == wanted)
}

// Whether the answer is that of an accepted commit with this number, whose verdict held.
fn has_held(answer: &Result<Committed, CommitFault>, wanted: u64) -> bool {
    matches!(answer, Ok(Committed::Done { number, again: Again::No }) if *number == wanted)
}

// Whether it is that of one which was evaluated in its turn under its own shapes.
fn has_shapes(answer: &Result<Committed, CommitFault>, wanted: u64) -> bool {
    matches!(answer, Ok(Committed::Done { number, again: Again::OwnShapes }) if *number == wanted)
}

// How many results a refusal has, and the first triple of the other commit that made it evaluate again.
fn refused_by(answer: &Result<Committed, CommitFault>) -> Option<(usize, u64, &Triple)> {
    match answer {
        Ok(
            Committed::Refused {
                rows,
                again: Again::Touched(commit, triple),
                shapes: _,
            },
        ) => Some((rows.len(), *commit, triple)),
        _ => None,
    }
}

fn is_read_only(answer: &Result<Committed, CommitFault>, wanted: u64) -> bool {
    matches!(answer, Ok(Committed::ReadOnly { version }) if *version == wanted)
}

// One session commits while another reads; the history of both is then replayed.
fn commit_and_read<L: Ledger, R: Threads + Wait + Abort + Sync>(
    rt: &R,
    alloc: Global,
    blank: Blank,
) -> Result<(), Fail>
    requires name { blank.name ≡ L.name }
    requires parts { blank.parts ≡ L.parts }
    requires some { 0 < L.parts }
{
    let mut steps = Steps::<L>::begin(blank);
    let (store, keeper) = Store::<MemDisk>::new(alloc, LIMITS)?;
    let Ok((keeper, first)) = store.open(rt, keeper) else {
        return Err(Fail::new("a session is opened"));
    };
    let Ok((keeper, second)) = store.open(rt, keeper) else {
        return Err(Fail::new("another session is opened"));
    };
    let first = ask_locally(rt, alloc, &store, first)?;
    let first = add_one(rt, alloc, &store, first)?;
    let (second, begun) = store.begin(rt, second);
    assert_eq!(rt; begun, Ok(0));
    let (first, done) = store.commit(rt, first, &mut steps);
    assert!(rt; is_done(&done, 1));
    let (second, read) = store.commit(rt, second, &mut steps);
    assert!(rt; is_read_only(&read, 0));
    let keeper = store.meet(keeper, second);
    let keeper = store.meet(keeper, first);
    let (core, _) = store.close(keeper);
    assert_eq!(rt;
        core.order()?.as_slice(),
        [1, 2, 1, 1, 1, 1, 2, 1].as_slice()
    );
    let Ok(events) = core.into_events() else {
        return Err(Fail::new("there is memory for the events"));
    };
    let Ok(again) = Core::replay(rt, alloc, LIMITS, events, &mut steps) else {
        return Err(Fail::new("each event is a step"));
    };
    assert_eq!(rt; again.triples(), 1);
    Ok(())
}

#[test]
fn a_store_by_hand(rt: HostRuntime) -> Result<(), Fail> {
    commit_and_read::<Brand, HostRuntime>(&rt, rt.alloc(), Blank::new(1))
}

// Begins, adds triples, takes a head, and checks there; before the head nothing can be checked.
fn add_checked<L: Ledger, R: Threads + Wait + Abort + Sync>(
    rt: &R,
    store: &Store<MemDisk>,
    session: Session<MemDisk>,
    triples: &[Triple],
    steps: &mut Steps<L>,
) -> Result<Session<MemDisk>, Fail>
    requires session { IsSession store.now session }
    requires readable { AllByRecursion (IsReadable IsStored) triples.now }
    ensures { IfOk result (IsSession store.now) }
{
    let (session, begun) = store.begin(rt, session);
    assert!(rt; begun.is_ok());
    let (session, added) = store.stage_add(rt, session, triples);
    assert_eq!(rt; added, Ok(()));
    let mut session = session;
    let early = session.check(rt, steps);
    assert_eq!(rt; early, Err(CheckFault::NoHead));
    let (session, head) = store.head(rt, session);
    assert!(rt; head.is_ok());
    let mut session = session;
    let kept = session.check(rt, steps);
    assert_eq!(rt; kept, Ok(true));
    Ok(session)
}

// Commits shapes, of which a check keeps nothing.
fn commit_shapes<L: Ledger, R: Threads + Wait + Abort + Sync>(
    rt: &R,
    store: &Store<MemDisk>,
    session: Session<MemDisk>,
    shapes: ShapesGraph,
    steps: &mut Steps<L>,
) -> Result<Session<MemDisk>, Fail>
    requires session { IsSession store.now session }
    requires readable { IsReadableGraph shapes }
    ensures { IfOk result (IsSession store.now) }
{
    let (session, begun) = store.begin(rt, session);
    assert_eq!(rt; begun, Ok(0));
    let (session, staged) = store.stage_shapes(rt, session, shapes);
    assert_eq!(rt; staged, Ok(()));
    let (session, head) = store.head(rt, session);
    assert_eq!(rt; head, Ok(0));
    let mut session = session;
    let kept = session.check(rt, steps);
    assert_eq!(rt; kept, Ok(false));
    let (session, done) = store.commit(rt, session, steps);
    assert!(rt; has_shapes(&done, 1));
    Ok(session)
}

// The answer to the commit of a value of e:p at e:a, under shapes that allow one value, where another session commits this block
// between its check and its turn.
fn overtaken<L: Ledger, R: Threads + Wait + Abort + Sync>(
    rt: &R,
    alloc: Global,
    shapes: ShapesGraph,
    text: &[u8],
    steps: &mut Steps<L>,
) -> Result<Result<Committed, CommitFault>, Fail>
    requires { IsReadableGraph shapes }
{
    let (store, keeper) = Store::<MemDisk>::new(alloc, held::LIMITS)?;
    let Ok((keeper, first)) = store.open(rt, keeper) else {
        return Err(Fail::new("a session is opened"));
    };
    let Ok((_keeper, second)) = store.open(rt, keeper) else {
        return Err(Fail::new("another session is opened"));
    };
    let first = commit_shapes(rt, &store, first, shapes, steps)?;
    let value = triples_of(alloc, b"<e:a> <e:p> <e:b> .\n")?;
    let first = add_checked(rt, &store, first, value.as_slice(), steps)?;
    let others = triples_of(alloc, text)?;
    let second = add_checked(rt, &store, second, others.as_slice(), steps)?;
    let (_second, done) = store.commit(rt, second, steps);
    assert!(rt; has_held(&done, 2));
    let (_first, answer) = store.commit(rt, first, steps);
    Ok(answer)
}

// The shapes of a file that begins with them.
fn staged_shapes(alloc: Global, file: &str) -> Result<ShapesGraph, Fail>
    ensures { IfOk result IsReadableGraph }
{
    let files = commands_of(alloc, &[file])?;
    let Some(commands) = files.first() else {
        return Err(Fail::new("the file is read"));
    };
    for command in commands.as_slice() {
        if let Command::Shapes(shapes) = command {
            shapes.recall_readable();
            return Ok(shapes.graph().share()?);
        }
    }
    Err(Fail::new("shapes are staged"))
}

// A verdict that the other commit touched is no longer taken: the commit is evaluated again, and refused. One that it didn't
// touch holds: nothing is evaluated in the turn.
fn overtaken_rows<L: Ledger, R: Threads + Wait + Abort + Sync>(
    rt: &R,
    alloc: Global,
    blank: Blank,
) -> Result<(), Fail>
    requires name { blank.name ≡ L.name }
    requires parts { blank.parts ≡ L.parts }
    requires some { 0 < L.parts }
{
    let mut steps = Steps::<L>::begin(blank);
    let touched = overtaken(
        rt,
        alloc,
        staged_shapes(alloc, STAGES)?,
        b"<e:a> <e:p> <e:c> .\n",
        &mut steps,
    )?;
    let Some((count, commit, touching)) = refused_by(&touched) else {
        return Err(Fail::new("the commit is refused"));
    };
    assert_eq!(rt; count, 1);
    assert_eq!(rt; commit, 2);
    assert!(rt; *touching == triple(alloc, "e:a", "e:c")?);
    let left = overtaken(
        rt,
        alloc,
        staged_shapes(alloc, STAGES)?,
        b"<e:d> <e:p> <e:c> .\n",
        &mut steps,
    )?;
    assert!(rt; has_held(&left, 3));
    Ok(())
}

#[test]
fn verdicts_are_overtaken(rt: HostRuntime) -> Result<(), Fail> {
    overtaken_rows::<Brand, HostRuntime>(&rt, rt.alloc(), Blank::new(1))
}

const WARNINGS_STAND: Limits = Limits {
    terms: 20,
    triples: 100,
    mode: BlockMode::Violation,
};

const WARNS: &str = "\
begin
shapes turtle
@prefix sh: <http://www.w3.org/ns/shacl#> .
<e:S> sh:targetNode <e:a> ; sh:property <e:P> .
<e:P> sh:path <e:p> ; sh:minCount 1 ; sh:severity sh:Warning .
%%
commit
";

// How many results a session reports, and how many triples their shapes graph has.
fn reported(session: &Session<MemDisk>) -> Result<(usize, usize), ReportFault> {
    match session.report() {
        Ok(report) => {
            let (rows, shapes) = report.into_parts();
            Ok((rows.len(), shapes.triples().len()))
        }
        Err(fault) => Err(fault),
    }
}

// What a session reports before, within and after a transaction that stages shapes by which its graph has a warning.
fn report_around_shapes<L: Ledger, R: Threads + Wait + Abort + Sync>(
    rt: &R,
    alloc: Global,
    blank: Blank,
) -> Result<(), Fail>
    requires name { blank.name ≡ L.name }
    requires parts { blank.parts ≡ L.parts }
    requires some { 0 < L.parts }
{
    let mut steps = Steps::<L>::begin(blank);
    let shapes = staged_shapes(alloc, WARNS)?;
    let (store, keeper) = Store::<MemDisk>::new(alloc, WARNINGS_STAND)?;
    let Ok((_keeper, session)) = store.open(rt, keeper) else {
        return Err(Fail::new("a session is opened"));
    };
    assert_eq!(rt; reported(&session), Err(ReportFault::NoTransaction));
    let session = commit_shapes(rt, &store, session, shapes, &mut steps)?;
    assert_eq!(rt; reported(&session), Err(ReportFault::NoTransaction));
    let (session, begun) = store.begin(rt, session);
    assert_eq!(rt; begun, Ok(1));
    let triples = triples_of(alloc, b"<e:a> <e:p> <e:b> .\n")?;
    let (session, added) = store.stage_add(rt, session, triples.as_slice());
    assert_eq!(rt; added, Ok(()));
    assert_eq!(rt; reported(&session), Ok((1, 5)));
    Ok(())
}

#[test]
fn a_report_has_the_results_at_the_begin(rt: HostRuntime) -> Result<(), Fail> {
    report_around_shapes::<Brand, HostRuntime>(&rt, rt.alloc(), Blank::new(1))
}

// Opens a session and meets it again.
fn open_and_meet<R: Wait>(
    rt: &R,
    store: &Store<MemDisk>,
    keeper: Keeper<MemDisk>,
) -> Result<Keeper<MemDisk>, Fail>
    requires keeper { IsKeeper store.now keeper }
    requires seats { keeper.pass.spare ≡ 64 }
    ensures keeper { IfOk result (IsKeeper store.now) }
    ensures seats { IfOk result (λ next. next.pass.spare ≡ 64) }
{
    let Ok((keeper, session)) = store.open(rt, keeper) else {
        return Err(Fail::new("a session is left"));
    };
    Ok(store.meet(keeper, session))
}

// Opens as many sessions as there may be, each met again.
fn open_all<R: Wait>(
    rt: &R,
    store: &Store<MemDisk>,
    keeper: Keeper<MemDisk>,
) -> Result<Keeper<MemDisk>, Fail>
    requires keeper { IsKeeper store.now keeper }
    requires seats { keeper.pass.spare ≡ 64 }
    ensures keeper { IfOk result (IsKeeper store.now) }
    ensures seats { IfOk result (λ next. next.pass.spare ≡ 64) }
{
    let mut keeper = keeper;
    for _i in 0..64 {
        keeper = open_and_meet(rt, store, keeper)?;
    }
    Ok(keeper)
}

// No session is left, and the keeper goes on.
fn open_none<R: Wait>(
    rt: &R,
    store: &Store<MemDisk>,
    keeper: Keeper<MemDisk>,
) -> Result<Keeper<MemDisk>, Fail>
    requires keeper { IsKeeper store.now keeper }
    requires seats { keeper.pass.spare ≡ 64 }
    ensures keeper { IfOk result (IsKeeper store.now) }
    ensures seats { IfOk result (λ next. next.pass.spare ≡ 64) }
{
    let Err((kept, OpenFault::SessionsFull)) = store.open(rt, keeper) else {
        return Err(Fail::new("no session is left"));
    };
    Ok(kept)
}

// 64 sessions are given out, and no more; the keeper goes on.
#[test]
fn a_full_store(rt: HostRuntime) -> Result<(), Fail> {
    let (store, keeper) = Store::<MemDisk>::new(rt.alloc(), LIMITS)?;
    let keeper = open_all(&rt, &store, keeper)?;
    let keeper = open_none(&rt, &store, keeper)?;
    let keeper = open_none(&rt, &store, keeper)?;
    let (core, _) = store.close(keeper);
    let order = core.order()?;
    assert_eq!(&rt; order.len(), 66);
    assert_eq!(&rt; order[65], 0);
    Ok(())
}
