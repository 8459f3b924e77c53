//! Commits that are appended to a log on a disk in memory, whose calls may fail.
ghost use Rattle.std.specs.Prelude.{◌≡◌, ◌<◌, IfOk, None};
ghost use Rattle.store_model.specs.Store.{IsCommittable, IsOpened};
ghost use Rattle.commit_core.specs.Logged.{IsLoggable};

use collections::Sequence;
use commit_core::{BlockMode, CheckedTransaction, Commit, Core, Limits, Transaction};
use commit_log::{Log, create, open};
use disk::MemDisk;
use numbered_lists::Net;
use shape_eval::Steps;
use shapes_graph::ShapesGraph;
use std::alloc::{AllocError, Global};
use std::marker::Brand;
use std::process::Abort;
use std::sync::ledger::{Blank, Ledger};
use std::test::Fail;
use std::thread::Threads;

const LIMITS: Limits = Limits {
    terms: 2,
    triples: 2,
    mode: BlockMode::All,
};

// A log without a record, on a disk that fails at one call. To make it takes the calls 1 to 3.
fn new_log(rt: &impl Abort, alloc: Global, fail: u64) -> Result<Log<MemDisk>, Fail> {
    let mut numbers = Vec::new(alloc);
    numbers.push(fail)?;
    let disk = MemDisk::new(alloc, Vec::new(alloc), numbers, 0)?;
    match create(disk) {
        Ok(log) => Ok(log),
        Err((_, fault)) => panic!(rt; "{fault:?}"),
    }
}

fn next_session(core: &mut Core) -> Result<u32, Fail>
    ensures { IfOk result (λ session. IsOpened core.new.state session) }
{
    match core.session() {
        Ok(session) => Ok(session),
        Err(_) => Err(Fail::new("a session is given out")),
    }
}

// A transaction that stages the shapes graph without triples, and changes nothing else.
fn staging(alloc: Global) -> Result<Transaction, AllocError>
    ensures committable { IfOk result (λ x. (s : _) → IsCommittable s x) }
    ensures unchecked { IfOk result (λ x. x.verdict ≡ None) }
    ensures loggable { IfOk result IsLoggable }
{
    let staged = ShapesGraph::empty(alloc)?;
    let net = Net::new(alloc);
    let finds = Sequence::new(alloc);
    Ok(Transaction {
        base: 0,
        net,
        staged: Some(staged),
        finds,
        verdict: None,
    })
}

// Commits it in a session of its own.
fn commit_one<L: Ledger, R: Threads + Abort + Sync>(
    rt: &R,
    alloc: Global,
    core: &mut Core,
    log: &mut Log<MemDisk>,
    blank: Blank,
) -> Result<Commit, Fail>
    requires name { blank.name ≡ L.name }
    requires parts { blank.parts ≡ L.parts }
    requires some { 0 < L.parts }
{
    let session = next_session(core)?;
    assert!(rt; log.is_closed() == core.is_stopped());
    assert!(rt; log.count() == core.version());
    let transaction = staging(alloc)?;
    let mut steps = Steps::<L>::begin(blank);
    let checked = CheckedTransaction::unchecked(alloc, transaction);
    Ok(core.commit_logged(rt, session, checked, log, &mut steps))
}

fn commit<R: Threads + Abort + Sync>(
    rt: &R,
    alloc: Global,
    core: &mut Core,
    log: &mut Log<MemDisk>,
) -> Result<Commit, Fail> {
    commit_one::<Brand, R>(rt, alloc, core, log, Blank::new(1))
}

#[test]
fn commits_are_appended(rt: HostRuntime) -> Result<(), Fail> {
    let alloc = rt.alloc();
    let mut core = Core::open(alloc, LIMITS)?;
    let mut log = new_log(&rt, alloc, 0)?;
    match commit(&rt, alloc, &mut core, &mut log)? {
        Commit::Done { number, again: _ } => assert_eq!(rt; number, 1),
        _ => return Err(Fail::new("the commit is accepted")),
    }
    match commit(&rt, alloc, &mut core, &mut log)? {
        Commit::Done { number, again: _ } => assert_eq!(rt; number, 2),
        _ => return Err(Fail::new("the second one is accepted")),
    }
    let Ok((_, records)) = open(alloc, log.into_disk()) else {
        return Err(Fail::new("the log opens"));
    };
    assert_eq!(rt; records.len(), 2);
    for record in &records {
        assert!(rt; record.removed.is_empty() && record.added.is_empty());
        assert!(rt; record.shapes.is_some());
    }
    Ok(())
}

// The write of the block fails: the log is as it was when it is opened again, and the core is stopped.
#[test]
fn a_log_that_fails_stops_the_core(rt: HostRuntime) -> Result<(), Fail> {
    let alloc = rt.alloc();
    let mut core = Core::open(alloc, LIMITS)?;
    let mut log = new_log(&rt, alloc, 4)?;
    match commit(&rt, alloc, &mut core, &mut log)? {
        Commit::LogFault => {}
        _ => return Err(Fail::new("the log fails")),
    }
    assert!(rt; core.is_stopped() && log.is_closed());
    assert_eq!(rt; core.version(), 0);
    match commit(&rt, alloc, &mut core, &mut log)? {
        Commit::Stopped { version } => assert_eq!(rt; version, 0),
        _ => return Err(Fail::new("the core is stopped")),
    }
    assert_eq!(rt; core.order()?.as_slice(), [1, 1, 2, 2].as_slice());
    let Ok((_, records)) = open(alloc, log.into_disk()) else {
        return Err(Fail::new("the log opens"));
    };
    assert!(rt; records.is_empty());
    Ok(())
}
