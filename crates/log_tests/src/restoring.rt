//! Stores that the records of a log restore.
ghost use Rattle.std.specs.Prelude.{◌≡◌, ◌<◌, ◌+◌, ◌^◌, IfOk};
ghost use Rattle.commit_log.specs.Format.{AreRecordsFrom};

use commit_core::{
    BlockMode, Core, Limits, NameKind, NamingFault, Record, RestoreFault, last_staged,
};
use commit_log::{Log, create, open};
use disk::MemDisk;
use rdf_model::Term;
use record_text::read_record;
use shape_eval::Steps;
use shapes_graph::ShapesGraph;
use std::alloc::Global;
use std::marker::Brand;
use std::process::Abort;
use std::sync::ledger::{Blank, Ledger};
use std::test::Fail;
use std::thread::Threads;

const LIMITS: Limits = Limits {
    terms: 5,
    triples: 2,
    mode: BlockMode::All,
};

// Appends the next record, which has this text.
fn append(rt: &impl Abort, alloc: Global, log: &mut Log<MemDisk>, text: &str) {
    assert!(rt; log.count() < 1000);
    let number = log.count() + 1;
    match read_record(alloc, number, text.as_bytes()) {
        Ok(next) => assert!(rt; log.append(alloc, &next).is_ok()),
        Err(fault) => panic!(rt; "{fault:?} {text}"),
    }
}

// The records with these texts, as a log gives them.
fn records_of(rt: &impl Abort, alloc: Global, texts: &[&str]) -> Result<Vec<Record>, Fail>
    ensures { IfOk result (λ v. AreRecordsFrom 1 v.items) }
{
    let disk = MemDisk::new(alloc, Vec::new(alloc), Vec::new(alloc), 0)?;
    let Ok(mut log) = create(disk) else {
        panic!(rt; "a new log")
    };
    for text in texts {
        append(rt, alloc, &mut log, text);
    }
    let Ok((_, records)) = open(alloc, log.into_disk()) else {
        panic!(rt; "the log of the records")
    };
    Ok(records)
}

// What the records with these texts restore, none of which stages shapes.
fn restored<L: Ledger, R: Threads + Abort + Sync>(
    rt: &R,
    alloc: Global,
    limits: Limits,
    texts: &[&str],
    blank: Blank,
) -> Result<Result<Core, RestoreFault>, Fail>
    requires small { limits.terms + 2 < 2 ^ 32 }
    requires name { blank.name ≡ L.name }
    requires parts { blank.parts ≡ L.parts }
    requires some { 0 < L.parts }
{
    let records = records_of(rt, alloc, texts)?;
    match last_staged(&records) {
        Some(_) => panic!(rt; "no shapes are staged"),
        None => {}
    }
    let shapes = ShapesGraph::empty(alloc)?;
    let mut steps = Steps::<L>::begin(blank);
    Ok(Core::restore(rt, alloc, limits, records, shapes, &mut steps))
}

// Why no store is restored of records without shapes.
fn fault_of<R: Threads + Abort + Sync>(
    rt: &R,
    alloc: Global,
    limits: Limits,
    texts: &[&str],
) -> Result<RestoreFault, Fail>
    requires { limits.terms + 2 < 2 ^ 32 }
{
    match restored::<Brand, R>(rt, alloc, limits, texts, Blank::new(1))? {
        Ok(_) => Err(Fail::new("no store is restored")),
        Err(fault) => Ok(fault),
    }
}

fn blank(session: u32, number: u32) -> Term {
    Term::Blank { session, number }
}

const FIRST: &str = "commit 1\n+ <e:a> <e:p> <e:b> .\n+ <e:c> <e:p> _:s1x1 .\n";

#[test]
fn two_records(rt: HostRuntime) -> Result<(), Fail> {
    let alloc = rt.alloc();
    let texts = [FIRST, "commit 2\n- <e:a> <e:p> <e:b> .\n"];
    let Ok(mut core) = restored::<Brand, HostRuntime>(&rt, alloc, LIMITS, &texts, Blank::new(1))?
    else {
        return Err(Fail::new("two records are restored"));
    };
    assert_eq!(rt; core.version(), 2);
    assert_eq!(rt; core.triples(), 1);
    assert!(rt; !core.is_stopped());
    assert_eq!(rt; core.records().len(), 2);
    assert!(rt; core.order()?.is_empty());
    let Ok(session) = core.session() else {
        return Err(Fail::new("a session is given out"));
    };
    // Its blank node was given out, and is the last that was named; no other was.
    match core.name(session, NameKind::Attach, &[blank(1, 1)]) {
        Ok(numbers) => assert_eq!(rt; numbers.as_slice(), [6].as_slice()),
        Err(_) => return Err(Fail::new("the node is attached")),
    }
    Ok(())
}

#[test]
fn other_nodes_were_not_given(rt: HostRuntime) -> Result<(), Fail> {
    let alloc = rt.alloc();
    let Ok(mut core) = restored::<Brand, HostRuntime>(&rt, alloc, LIMITS, &[FIRST], Blank::new(1))?
    else {
        return Err(Fail::new("a record is restored"));
    };
    let Ok(session) = core.session() else {
        return Err(Fail::new("a session is given out"));
    };
    match core.name(session, NameKind::Attach, &[blank(1, 2)]) {
        Err(NamingFault::Unknown { node }) => assert_eq!(rt; node, blank(1, 2)),
        _ => return Err(Fail::new("the node wasn't given out")),
    }
    Ok(())
}

#[test]
fn records_that_do_not_fit(rt: HostRuntime) -> Result<(), Fail> {
    let alloc = rt.alloc();
    let absent = fault_of(&rt, alloc, LIMITS, &["commit 1\n- <e:a> <e:p> <e:b> .\n"])?;
    assert_eq!(rt; absent, RestoreFault::Misfit { record: 1 });
    let present = fault_of(
        &rt,
        alloc,
        LIMITS,
        &[FIRST, "commit 2\n+ <e:a> <e:p> <e:b> .\n"],
    )?;
    assert_eq!(rt; present, RestoreFault::Misfit { record: 2 });
    let both = "commit 2\n- <e:a> <e:p> <e:b> .\n+ <e:a> <e:p> <e:b> .\n";
    let moved = fault_of(&rt, alloc, LIMITS, &[FIRST, both])?;
    assert_eq!(rt; moved, RestoreFault::Misfit { record: 2 });
    Ok(())
}

// A record that doesn't fit comes before the limits; the graph is the last one, the terms are those of all records.
#[test]
fn records_beyond_the_limits(rt: HostRuntime) -> Result<(), Fail> {
    let alloc = rt.alloc();
    let terms = Limits { terms: 4, ..LIMITS };
    let many_terms = fault_of(&rt, alloc, terms, &[FIRST])?;
    assert_eq!(rt; many_terms, RestoreFault::TooLarge);
    let triples = Limits {
        triples: 1,
        ..LIMITS
    };
    let many_triples = fault_of(&rt, alloc, triples, &[FIRST])?;
    assert_eq!(rt; many_triples, RestoreFault::TooLarge);
    let misfit = fault_of(
        &rt,
        alloc,
        triples,
        &[FIRST, "commit 2\n- <e:d> <e:p> <e:e> .\n"],
    )?;
    assert_eq!(rt; misfit, RestoreFault::Misfit { record: 2 });
    let removed = [FIRST, "commit 2\n- <e:a> <e:p> <e:b> .\n"];
    let one = restored::<Brand, HostRuntime>(&rt, alloc, triples, &removed, Blank::new(1))?;
    assert!(rt; one.is_ok());
    Ok(())
}
