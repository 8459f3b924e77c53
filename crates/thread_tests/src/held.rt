// Session files that run beside each other, held at their events so that their turns come in a known order.
ghost use Rattle.std.specs.Prelude.{IfOk};
ghost use Rattle.record_text.specs.Records.{IsReadableGraph};

use crate::holding_gate::{Event, Hold, HoldingGate, holds_of};
use collections::Sequence;
use commit_core::{BlockMode, Limits};
use ntriples_text::read_named;
use outside::EventKind::{Begin, Commit, Head, Name};
use outside::{EventKind, RegexMaker};
use rdf_model::Triple;
use session_model::{Block, Command};
use session_player::{Run, replay_all, text_of};
use session_reader::prepare;
use session_threads::{EndedRun, run_new};
use std::alloc::{AllocError, Global};
use std::process::Abort;
use std::sync::Wait;
use std::test::*;
use std::thread::Threads;

pub const LIMITS: Limits = Limits {
    terms: 20,
    triples: 100,
    mode: BlockMode::All,
};

pub const COMMITS: &[EventKind] = &[Begin, Name, Head, Commit];

const COMMITS_TWICE: &[EventKind] = &[Begin, Name, Head, Commit, Begin, Name, Head, Commit];

pub const ADDS_AT_A: &str = "\
begin
add ntriples
<e:a> <e:p> <e:b> .
%%
commit
";

pub const ADDS_AT_B: &str = "\
begin
add ntriples
<e:b> <e:p> <e:b> .
%%
commit
";

const FINDS: &str = "\
begin
find ? <e:p> ?
add ntriples
<e:a> <e:q> <e:b> .
%%
commit
";

const FINDS_NOT: &str = "\
begin
add ntriples
<e:a> <e:q> <e:b> .
%%
commit
";

const OVERTAKES: &str = "\
begin
add ntriples
<e:x> <e:r> <e:y> .
%%
commit
begin
add ntriples
<e:x> <e:p> <e:y> .
%%
commit
";

pub const STAGES: &str = "\
begin
shapes turtle
@prefix sh: <http://www.w3.org/ns/shacl#> .
<e:S> sh:targetSubjectsOf <e:p> ; sh:property <e:P> .
<e:P> sh:path <e:p> ; sh:maxCount 1 .
%%
commit
begin
add ntriples
<e:a> <e:p> <e:b> .
%%
commit
";

const TOUCHES: &str = "\
begin
add ntriples
<e:a> <e:p> <e:c> .
%%
commit
";

const ELSEWHERE: &str = "\
begin
add ntriples
<e:d> <e:p> <e:c> .
%%
commit
";

const READS: &str = "\
begin
find <e:a> ? ?
commit
";

const GIVES: &str = "\
begin
add ntriples
_:b <e:p> <e:c> .
%%
commit
";

// About the blank node of the first block of session 1.
const ATTACHES: &str = "\
%session 2
begin
attach ntriples
_:s1x2 <e:q> <e:d> .
%%
attach ntriples
_:s1x1 <e:q> <e:d> .
%%
find _:s1x1 ? ?
commit
";

// Most of its commands are no events; the block of many terms is full.
const ANSWERS_ITSELF: &str = "\
commit
begin
begin
add ntriples
<e:a> .
%%
find ? ? ?
commit
remove ntriples
%%
begin
abort
begin
add ntriples
<e:1> <e:2> <e:3> .
<e:4> <e:5> <e:6> .
<e:7> <e:8> <e:9> .
<e:10> <e:11> <e:12> .
<e:13> <e:14> <e:15> .
<e:16> <e:17> <e:18> .
<e:19> <e:20> <e:21> .
%%
add ntriples
<e:a> <e:p> <e:b> .
%%
remove ntriples
<e:a> <e:p> <e:b> .
%%
commit
";

// The commits of the first and of the second transaction of session 1, and that of session 2.
const FIRST_OF_1: Event = Event(1, 5);

const SECOND_OF_1: Event = Event(1, 9);

const FIRST_OF_2: Event = Event(2, 5);

// Files, the kinds of their events, an order of the sessions' events, the commits that aren't ready then, and what is printed
// where it is forced.
struct Schedule {
    files: &'static [&'static str],
    kinds: &'static [&'static [EventKind]],
    order: &'static [u32],
    unready: &'static [Event],
    printed: &'static str,
}

const SCHEDULES: [Schedule; 8] = [
    Schedule {
        files: &[FINDS, OVERTAKES],
        kinds: &[COMMITS, COMMITS_TWICE],
        order: &[1, 2, 1, 2, 2, 2, 2, 2, 2, 2, 2, 1, 1, 1],
        unready: &[FIRST_OF_1],
        printed: "\
session 1
begin 0
find 0
add 1
conflict 2 <e:x> <e:p> <e:y> .
session 2
begin 0
add 1
commit 1
begin 1
add 1
commit 2
history 1 2 1 2 2 2 2 2 2 2 2 1 1 1
",
    },
    Schedule {
        files: &[FINDS_NOT, OVERTAKES],
        kinds: &[COMMITS, COMMITS_TWICE],
        order: &[1, 2, 1, 2, 2, 2, 2, 2, 2, 2, 2, 1, 1, 1],
        unready: &[],
        printed: "\
session 1
begin 0
add 1
commit 3
session 2
begin 0
add 1
commit 1
begin 1
add 1
commit 2
history 1 2 1 2 2 2 2 2 2 2 2 1 1 1
",
    },
    Schedule {
        files: &[STAGES, TOUCHES],
        kinds: &[COMMITS_TWICE, COMMITS],
        order: &[1, 2, 1, 1, 1, 1, 1, 1, 1, 2, 2, 2, 2, 1],
        unready: &[FIRST_OF_1, SECOND_OF_1],
        printed: "\
session 1
begin 0
shapes 4
commit 1
begin 1
add 1
refused 1
@prefix sh: <http://www.w3.org/ns/shacl#> .
_:r a sh:ValidationReport .
_:r sh:conforms false .
_:r sh:result _:r1 .
_:r1 a sh:ValidationResult .
_:r1 sh:focusNode <e:a> .
_:r1 sh:resultPath <e:p> .
_:r1 sh:resultSeverity <http://www.w3.org/ns/shacl#Violation> .
_:r1 sh:sourceShape <e:P> .
_:r1 sh:sourceConstraintComponent sh:MaxCountConstraintComponent .
end
session 2
begin 1
add 1
commit 2
history 1 2 1 1 1 1 1 1 1 2 2 2 2 1
",
    },
    Schedule {
        files: &[STAGES, ELSEWHERE],
        kinds: &[COMMITS_TWICE, COMMITS],
        order: &[1, 2, 1, 1, 1, 1, 1, 1, 1, 2, 2, 2, 2, 1],
        unready: &[FIRST_OF_1],
        printed: "\
session 1
begin 0
shapes 4
commit 1
begin 1
add 1
commit 3
session 2
begin 1
add 1
commit 2
history 1 2 1 1 1 1 1 1 1 2 2 2 2 1
",
    },
    Schedule {
        files: &[ADDS_AT_A, READS],
        kinds: &[COMMITS, &[Begin]],
        order: &[1, 2, 1, 1, 1, 1, 2],
        unready: &[],
        printed: "\
session 1
begin 0
add 1
commit 1
session 2
begin 1
find 1
<e:a> <e:p> <e:b> .
read only 1
history 1 2 1 1 1 1 2
",
    },
    Schedule {
        files: &[ADDS_AT_A, FINDS, ADDS_AT_B],
        kinds: &[COMMITS, COMMITS, COMMITS],
        order: &[1, 2, 3, 2, 1, 3, 3, 1, 2, 1, 3, 2, 3, 2, 1],
        unready: &[FIRST_OF_2],
        printed: "\
session 1
begin 0
add 1
commit 2
session 2
begin 0
find 0
add 1
conflict 1 <e:b> <e:p> <e:b> .
session 3
begin 0
add 1
commit 1
history 1 2 3 2 1 3 3 1 2 1 3 2 3 2 1
",
    },
    Schedule {
        files: &[GIVES, ATTACHES],
        kinds: &[COMMITS, &[Begin, Name, Name, Head, Commit]],
        order: &[1, 2, 1, 1, 2, 2, 2, 2, 2, 1, 1],
        unready: &[],
        printed: "\
session 1
begin 0
add 1
commit 2
session 2
begin 0
unknown _:s1x2
attach 1
find 1
_:s1x1 <e:q> <e:d> .
commit 1
history 1 2 1 1 2 2 2 2 2 1 1
",
    },
    Schedule {
        files: &[ANSWERS_ITSELF],
        kinds: &[&[Begin, Begin, Begin, Name, Name, Name, Head, Commit]],
        order: &[1, 1, 1, 1, 1, 1, 1, 1, 1],
        unready: &[],
        printed: "\
session 1
no transaction
begin 0
already open
bad add 1 3
find 0
read only 0
no transaction
begin 0
abort
begin 0
full terms
add 1
remove 1
commit 1
history 1 1 1 1 1 1 1 1 1
",
    },
];

// Files, the kinds of their events, holds, the commits that aren't ready, and how what is printed begins; the history's last
// place is 1.
struct Held {
    files: &'static [&'static str],
    kinds: &'static [&'static [EventKind]],
    holds: &'static [Hold],
    unready: &'static [Event],
    printed: &'static str,
}

const HELD: [Held; 3] = [
    Held {
        files: &[ADDS_AT_A, ADDS_AT_B],
        kinds: &[COMMITS, COMMITS],
        holds: &[
            // Session 2 before its Begin until session 1's Name was answered.
            Hold {
                before: Event(2, 2),
                until: Event(1, 3),
            },
            // Session 1 before its Commit until session 2's Commit was answered.
            Hold {
                before: Event(1, 5),
                until: Event(2, 5),
            },
        ],
        unready: &[],
        printed: "\
session 1
begin 0
add 1
commit 2
session 2
begin 0
add 1
commit 1
history 1 2 ",
    },
    Held {
        files: &[FINDS, OVERTAKES],
        kinds: &[COMMITS, COMMITS_TWICE],
        holds: &[
            // Session 2 before its first Begin until session 1's Name was answered.
            Hold {
                before: Event(2, 2),
                until: Event(1, 3),
            },
            // Session 1 before its Head until session 2's second Commit was answered.
            Hold {
                before: Event(1, 4),
                until: Event(2, 9),
            },
        ],
        unready: &[FIRST_OF_1],
        printed: "\
session 1
begin 0
find 0
add 1
conflict 2 <e:x> <e:p> <e:y> .
session 2
begin 0
add 1
commit 1
begin 1
add 1
commit 2
history 1 2 1 1 2 2 2 2 2 2 2 2 1 1
",
    },
    Held {
        files: &[FINDS, OVERTAKES],
        kinds: &[COMMITS, COMMITS_TWICE],
        // Session 1 before its Begin until session 2's second Commit was answered.
        holds: &[Hold {
            before: Event(1, 2),
            until: Event(2, 9),
        }],
        unready: &[],
        printed: "\
session 1
begin 2
find 1
<e:x> <e:p> <e:y> .
add 1
commit 3
session 2
begin 0
add 1
commit 1
begin 1
add 1
commit 2
history 1 2 2 2 2 2 2 2 2 2 1 1 1 1
",
    },
];

// The commands of session files.
pub fn commands_of(alloc: Global, files: &[&str]) -> Result<Vec<Sequence<Command>>, Fail> {
    let mut maker = RegexMaker::new(alloc);
    let mut all = Vec::new(alloc);
    let mut session = 1;
    for file in files {
        if session > 3 || file.len() > 1000 {
            return Err(Fail::new("there are few files, and they are short"));
        }
        let Ok(commands) = prepare(alloc, &mut maker, session, 1, file.as_bytes()) else {
            return Err(Fail::new("each file is read"));
        };
        all.push(commands)?;
        session += 1;
    }
    Ok(all)
}

// A block of N-Triples whose labels are those of the store.
pub fn block_of(alloc: Global, text: &[u8]) -> Result<Block, Fail> {
    if text.len() > 1000 {
        return Err(Fail::new("the block is short"));
    }
    let Ok(block) = Block::read_named(alloc, text) else {
        return Err(Fail::new("the block is read"));
    };
    Ok(block)
}

// The triples of a text of N-Triples whose labels are those of the store.
pub fn triples_of(alloc: Global, text: &[u8]) -> Result<Sequence<Triple>, Fail>
    ensures { IfOk result IsReadableGraph }
{
    if text.len() > 1000 {
        return Err(Fail::new("the text is short"));
    }
    let Ok(triples) = read_named(alloc, text) else {
        return Err(Fail::new("the text is read"));
    };
    Ok(triples)
}

// Runs the files, held so; each session is to call at each of its places, each commit ready but these, and no hold to spend its
// turns.
fn run_held<R: Threads + Wait + Abort + Sync>(
    rt: &R,
    alloc: Global,
    files: Vec<Sequence<Command>>,
    kinds: &[&[EventKind]],
    holds: &[Hold],
    unready: &[Event],
) -> Result<Run, Fail> {
    if files.len() > 64 {
        return Err(Fail::new("there are few files"));
    }
    let gate = HoldingGate::new(kinds, holds, unready);
    let EndedRun {
        run,
        core: _,
        log: _,
    } = run_new(rt, alloc, LIMITS, files, &gate)?;
    assert!(rt; gate.is_through());
    Ok(run)
}

fn places_of(alloc: Global, order: &[u32]) -> Result<Vec<Option<u32>>, AllocError> {
    let mut places = Vec::new(alloc);
    for session in order {
        places.push(Some(*session))?;
    }
    Ok(places)
}

// What the files print in this order.
pub fn replayed<R: Threads + Sync>(
    rt: &R,
    alloc: Global,
    files: Vec<Sequence<Command>>,
    order: &[u32],
) -> Result<String, Fail> {
    if files.len() > 64 {
        return Err(Fail::new("there are few files"));
    }
    let places = places_of(alloc, order)?;
    let Ok(run) = replay_all(rt, alloc, LIMITS, files, &places) else {
        return Err(Fail::new("each place is valid"));
    };
    Ok(text_of(alloc, &run)?)
}

#[test]
fn orders_are_forced(rt: HostRuntime) -> Result<(), Fail> {
    let alloc = rt.alloc();
    for row in &SCHEDULES {
        let files = commands_of(alloc, row.files)?;
        let holds = holds_of(alloc, row.order)?;
        let run = run_held(&rt, alloc, files, row.kinds, &holds, row.unready)?;
        assert_eq!(rt; text_of(alloc, &run)?.as_str(), row.printed);
        let again = replayed(&rt, alloc, commands_of(alloc, row.files)?, &run.order)?;
        assert_eq!(rt; again.as_str(), row.printed);
    }
    Ok(())
}

#[test]
fn sessions_are_held(rt: HostRuntime) -> Result<(), Fail> {
    let alloc = rt.alloc();
    for row in &HELD {
        let files = commands_of(alloc, row.files)?;
        let run = run_held(&rt, alloc, files, row.kinds, row.holds, row.unready)?;
        let text = text_of(alloc, &run)?;
        assert!(rt; text.starts_with(row.printed), "{text}");
        assert_eq!(rt; run.order.last(), Some(&1));
    }
    Ok(())
}
