// The core's own calls, each with what it answers.
ghost use Rattle.std.specs.Prelude.{◌≡◌, ◌<◌, IfOk};
ghost use Rattle.store_model.specs.Store.{IsCommittable, IsOpened};

use collections::Sequence;
use commit_core::{
    Again, BlockMode, CheckedTransaction, Commit, Core, Limits, NameKind, NamingFault, Transaction,
    slip,
};
use numbered_lists::Net;
use rdf_model::{Pattern, Term, Text};
use shape_eval::Steps;
use shapes_graph::ShapesGraph;
use std::alloc::{AllocError, Global};
use std::marker::Brand;
use std::sync::ledger::{Blank, Ledger};
use std::test::Fail;
use std::thread::Threads;

const LIMITS: Limits = Limits {
    terms: 2,
    triples: 2,
    mode: BlockMode::All,
};

fn iri(alloc: Global, text: &str) -> Result<Term, AllocError> {
    Ok(Term::Iri(Text::new(alloc, text)?))
}

fn blank(session: u32, number: u32) -> Term {
    Term::Blank { session, number }
}

fn first_session(core: &mut Core) -> Result<u32, Fail>
    ensures { IfOk result (λ session. IsOpened core.new.state session) }
{
    match core.session() {
        Ok(session) => Ok(session),
        Err(_) => Err(Fail::new("a session is given out")),
    }
}

// A store with one session.
fn opened(alloc: Global) -> Result<(Core, u32), Fail>
    ensures { IfOk result (λ r. IsOpened r.0.state r.1) }
{
    let mut core = Core::open(alloc, LIMITS)?;
    let session = first_session(&mut core)?;
    Ok((core, session))
}

// All triples of a version, which are none.
const ALL: Pattern = Pattern {
    subject: None,
    predicate: None,
    object: None,
};

#[test]
fn an_empty_store_is_handed_out(rt: HostRuntime) -> Result<(), Fail> {
    let alloc = rt.alloc();
    let (mut core, session) = opened(alloc)?;
    assert_eq!(rt; session, 1);
    let snap = core.begin(session)?;
    assert_eq!(rt; snap.number(), 0);
    assert!(rt; snap.find(alloc, &Net::new(alloc), &ALL)?.is_empty());
    assert_eq!(rt; core.triples(), 0);
    assert_eq!(rt; core.order()?.as_slice(), [1, 1].as_slice());
    Ok(())
}

// The newest version, as a commit that is checked beforehand takes it.
#[test]
fn the_newest_version_is_handed_out(rt: HostRuntime) -> Result<(), Fail> {
    let alloc = rt.alloc();
    let (mut core, session) = opened(alloc)?;
    let snap = core.head(session)?;
    assert_eq!(rt; snap.number(), 0);
    assert!(rt; snap.find(alloc, &Net::new(alloc), &ALL)?.is_empty());
    assert_eq!(rt; core.order()?.as_slice(), [1, 1].as_slice());
    Ok(())
}

// A step that ran out of memory, under the number that is nobody's: room for it was made before.
#[test]
fn a_step_without_memory_is_recorded(rt: HostRuntime) -> Result<(), Fail> {
    let alloc = rt.alloc();
    let (mut core, session) = opened(alloc)?;
    assert_eq!(rt; session, 1);
    let room = slip(alloc)?;
    core.void(0, room);
    assert_eq!(rt; core.order()?.as_slice(), [1, 0].as_slice());
    Ok(())
}

#[test]
fn terms_are_numbered(rt: HostRuntime) -> Result<(), Fail> {
    let alloc = rt.alloc();
    let (mut core, session) = opened(alloc)?;
    let two = [iri(alloc, "e:b")?, iri(alloc, "e:a")?];
    // Behind the two terms that each store has.
    match core.name(session, NameKind::Fresh, &two) {
        Ok(numbers) => assert_eq!(rt; numbers.as_slice(), [2, 3].as_slice()),
        Err(_) => return Err(Fail::new("two terms are named")),
    }
    Ok(())
}

#[test]
fn a_third_term_is_one_too_many(rt: HostRuntime) -> Result<(), Fail> {
    let alloc = rt.alloc();
    let (mut core, session) = opened(alloc)?;
    let three = [iri(alloc, "e:a")?, iri(alloc, "e:b")?, iri(alloc, "e:c")?];
    match core.name(session, NameKind::Fresh, &three) {
        Err(NamingFault::Full { count }) => assert_eq!(rt; count, 3),
        Ok(_) | Err(NamingFault::Unknown { node: _ } | NamingFault::Memory) => {
            return Err(Fail::new("the store is full"));
        }
    }
    Ok(())
}

// A block that attaches is told the least node that wasn't given out.
#[test]
fn an_attachment_is_told_its_least_node(rt: HostRuntime) -> Result<(), Fail> {
    let alloc = rt.alloc();
    let (mut core, session) = opened(alloc)?;
    match core.name(session, NameKind::Attach, &[blank(1, 2), blank(1, 1)]) {
        Err(NamingFault::Unknown { node }) => assert_eq!(rt; node, blank(1, 1)),
        _ => return Err(Fail::new("no node was given out")),
    }
    Ok(())
}

// So it is where the limit would be passed.
#[test]
fn an_unknown_node_comes_before_the_limit(rt: HostRuntime) -> Result<(), Fail> {
    let alloc = rt.alloc();
    let (mut core, session) = opened(alloc)?;
    let many = [
        iri(alloc, "e:a")?,
        iri(alloc, "e:b")?,
        iri(alloc, "e:c")?,
        blank(2, 1),
    ];
    match core.name(session, NameKind::Attach, &many) {
        Err(NamingFault::Unknown { node }) => assert_eq!(rt; node, blank(2, 1)),
        _ => return Err(Fail::new("a node that wasn't given out comes first")),
    }
    Ok(())
}

// A transaction that stages the shapes graph without triples, and changes nothing else.
fn staging(alloc: Global) -> Result<Transaction, AllocError>
    ensures committable { IfOk result (λ x. (s : _) → IsCommittable s x) }
    ensures unchecked { IfOk result (λ x. x.verdict ≡ None) }
{
    let staged = ShapesGraph::empty(alloc)?;
    let net = Net::new(alloc);
    let finds = Sequence::new(alloc);
    Ok(Transaction {
        base: 0,
        net,
        staged: Some(staged),
        finds,
        verdict: None,
    })
}

fn committed<L: Ledger, T: Threads + Sync>(
    rt: &T,
    alloc: Global,
    core: &mut Core,
    session: u32,
    blank: Blank,
) -> Result<Commit, AllocError>
    requires session { IsOpened core.old.state session }
    requires name { blank.name ≡ L.name }
    requires parts { blank.parts ≡ L.parts }
    requires some { 0 < L.parts }
{
    let transaction = staging(alloc)?;
    let mut steps = Steps::<L>::begin(blank);
    let checked = CheckedTransaction::unchecked(alloc, transaction);
    Ok(core.commit(rt, session, checked, &mut steps))
}

fn committed_one<T: Threads + Sync>(
    rt: &T,
    alloc: Global,
    core: &mut Core,
    session: u32,
) -> Result<Commit, AllocError>
    requires { IsOpened core.old.state session }
{
    committed::<Brand, T>(rt, alloc, core, session, Blank::new(1))
}

// A shapes graph without triples is staged, so the graph is evaluated in the step.
#[test]
fn shapes_are_committed(rt: HostRuntime) -> Result<(), Fail> {
    let alloc = rt.alloc();
    let (mut core, session) = opened(alloc)?;
    let commit = committed_one(&rt, alloc, &mut core, session)?;
    match &commit {
        Commit::Done {
            number,
            again: Again::OwnShapes,
        } => assert_eq!(rt; *number, 1),
        _ => return Err(Fail::new("the shapes are committed")),
    }
    assert_eq!(rt; core.order()?.as_slice(), [1, 1].as_slice());
    match core.into_events() {
        Ok(events) => assert_eq!(rt; events.len(), 2),
        Err(_) => return Err(Fail::new("the events are given")),
    }
    Ok(())
}
