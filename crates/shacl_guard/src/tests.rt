// Devices that fail, how often the sink is asked, and sessions that a gate holds, through `run` with the forms in memory. What
// session files print is shown by runs of the program.
ghost use Rattle.std.specs.Prelude.{◌<◌};

use crate::{Status, run};
use disk::MemDisk;
use outside::{EventKind, Gate, MemFile, MemFiles, MemSink, OpenGate, Place, RegexMaker};
use std::alloc::{AllocError, Global};
use std::sync::Wait;
use std::sync::atomic::{AtomicBool, AtomicU64, Ordering};
use std::test::Fail;
use std::thread;
use std::thread::Threads;

const FIRST_RUN: &[u8] = b"begin\nadd ntriples\n<e:a> <e:p> <e:b> .\n%%\ncommit\n";

const SECOND_RUN: &[u8] = b"begin\nadd ntriples\n<e:b> <e:p> <e:b> .\n%%\ncommit\n";

const PRINTED: &[u8] = b"session 1\nbegin 0\nadd 1\ncommit 1\nsession 2\nhistory 1 2 1 1 1 1\n";

pub(crate) fn file_of(alloc: Global, name: &str, bytes: &[u8]) -> Result<MemFile, AllocError> {
    Ok(MemFile {
        name: String::from_str(alloc, name)?,
        bytes: bytes.to_vec(alloc)?,
    })
}

// The command with two files, where these loads fail, and these calls of a sink that takes so many bytes a call.
fn run_two<R: Threads + Wait + Sync>(
    rt: &R,
    alloc: Global,
    command: &str,
    texts: [&[u8]; 2],
    loads: Vec<u64>,
    most: usize,
    writes: Vec<u64>,
) -> Result<(Status, MemSink), Fail>
    requires { 0 < most }
{
    let held = vec![in alloc;
        file_of(alloc, "f", texts[0])?,
        file_of(alloc, "g", texts[1])?,
    ]?;
    let mut files = MemFiles::new(alloc, held, loads);
    let mut out = MemSink::new(alloc, most, 1000, writes)?;
    let mut maker = RegexMaker::new(alloc);
    let words = ["shacl_guard", command, "f", "g"];
    let disk = MemDisk::new(alloc, Vec::new(alloc), Vec::new(alloc), 0)?;
    let (status, _) = run(
        rt, alloc, &words, &mut files, &mut out, &mut maker, &OpenGate, disk,
    );
    Ok((status, out))
}

// Each write offers all that is left: 63 bytes in eight writes of eight.
#[test]
fn prints_what_the_devices_allow(rt: HostRuntime) -> Result<(), Fail> {
    // The load and the write that fail, if any; the status, how many bytes are taken, and in how many writes.
    let rows: [(u64, u64, Status, usize, u64); 4] = [
        (0, 0, Status::Done, 63, 8),
        (0, 3, Status::WriteFault, 16, 3),
        (1, 0, Status::ReadFault, 0, 0),
        (2, 0, Status::ReadFault, 0, 0),
    ];
    for (load, write, status, taken, calls) in rows {
        let loads = vec![in rt.alloc(); load]?;
        let writes = vec![in rt.alloc(); write]?;
        let texts = [FIRST_RUN, b"".as_slice()];
        let (ended, out) = run_two(&rt, rt.alloc(), "run", texts, loads, 8, writes)?;
        assert_eq!(rt; ended, status, "load {load}, write {write}");
        assert_eq!(rt; out.taken().len(), taken, "load {load}, write {write}");
        assert!(rt;
            PRINTED.starts_with(out.taken()),
            "load {load}, write {write}"
        );
        assert_eq!(rt; out.calls(), calls, "load {load}, write {write}");
    }
    Ok(())
}

const DATA: &[u8] = b"<e:a> <e:p> <e:b> .\n";

const SHAPES: &[u8] =
    b"@prefix sh: <http://www.w3.org/ns/shacl#> .\n<e:S> sh:targetNode <e:a> ; sh:property <e:P> .\n<e:P> sh:path <e:p> ; sh:minCount 1 .\n";

const CONFORMS: &[u8] =
    b"@prefix sh: <http://www.w3.org/ns/shacl#> .\n_:r a sh:ValidationReport .\n_:r sh:conforms true .\n";

// The report has 95 bytes, in twelve writes of eight. The data is loaded before the shapes, and the shapes are loaded though the
// data is no Turtle.
#[test]
fn validates_what_the_devices_allow(rt: HostRuntime) -> Result<(), Fail> {
    // The data; the load and the write that fail, if any; the status, what is due, and how much of it is taken.
    let rows: [(&[u8], u64, u64, u8, &[u8], usize); 6] = [
        (DATA, 0, 0, 0, CONFORMS, 95),
        (DATA, 0, 2, 4, CONFORMS, 8),
        (DATA, 1, 0, 3, b"".as_slice(), 0),
        (DATA, 2, 0, 3, b"".as_slice(), 0),
        (
            b"<e:a> <e:p> .".as_slice(),
            0,
            0,
            10,
            b"error data line 1 kind 3\n".as_slice(),
            25,
        ),
        (b"<e:a> <e:p> .".as_slice(), 2, 0, 3, b"".as_slice(), 0),
    ];
    for (data_text, load, write, status, due, taken) in rows {
        let loads = vec![in rt.alloc(); load]?;
        let writes = vec![in rt.alloc(); write]?;
        let texts = [data_text, SHAPES];
        let (ended, out) = run_two(&rt, rt.alloc(), "validate", texts, loads, 8, writes)?;
        assert_eq!(rt; ended.code(), status, "load {load}, write {write}");
        assert_eq!(rt; out.taken().len(), taken, "load {load}, write {write}");
        assert!(rt; due.starts_with(out.taken()), "load {load}, write {write}");
    }
    Ok(())
}

// What is told of generated loads, in threads whose order is theirs. No file is there.
#[test]
fn generated_loads_are_counted(rt: HostRuntime) -> Result<(), Fail> {
    let alloc = rt.alloc();
    let rows: [(&str, u8, &[u8]); 6] = [
        (
            "1",
            0,
            b"generate 1\ncommits 5\nrefused 0\ntriples 2\n".as_slice(),
        ),
        (
            "25",
            0,
            b"generate 25\ncommits 27\nrefused 2\ntriples 46\n".as_slice(),
        ),
        (
            "100",
            0,
            b"generate 100\ncommits 94\nrefused 10\ntriples 180\n".as_slice(),
        ),
        ("0", 2, b"error usage\n".as_slice()),
        ("025", 2, b"error usage\n".as_slice()),
        ("100001", 2, b"error usage\n".as_slice()),
    ];
    for (size, status, due) in rows {
        let mut files = MemFiles::new(alloc, Vec::new(alloc), Vec::new(alloc));
        let mut out = MemSink::new(alloc, 1000, 1000, Vec::new(alloc))?;
        let mut maker = RegexMaker::new(alloc);
        let words = ["shacl_guard", "generate", size];
        let disk = MemDisk::new(alloc, Vec::new(alloc), Vec::new(alloc), 0)?;
        let (ended, _) = run(
            &rt, alloc, &words, &mut files, &mut out, &mut maker, &OpenGate, disk,
        );
        assert_eq!(rt; ended.code(), status, "{size}");
        assert_eq!(rt; out.taken(), due, "{size}");
    }
    Ok(())
}

// So often a hold looks for what it waits for, at most; between looks it gives way now and then.
const TURNS: u64 = 200_000_000;

const TURNS_BETWEEN: u64 = 100_000;

// Holds session 2 before its Begin until session 1's Name was answered, and session 1 before its Commit until session 2's
// Commit was answered.
#[derive(Drop)]
struct HoldingGate {
    named: AtomicBool,
    committed: AtomicBool,
    // How often it was called, how often where a commit is ready, and how often a hold spent its turns.
    calls: AtomicU64,
    ready: AtomicU64,
    spent: AtomicU64,
}

impl HoldingGate {
    fn hold_until(&self, reached: &AtomicBool) {
        for turn in 0..TURNS {
            if reached.load(Ordering::SeqCst) {
                return;
            }
            if turn % TURNS_BETWEEN == 0 {
                thread::yield_now();
            }
        }
        self.spent.fetch_add(1, Ordering::SeqCst);
    }

    fn before(&self, session: u32, kind: EventKind) {
        if session == 2 && kind == EventKind::Begin {
            self.hold_until(&self.named);
        }
        if session == 1 && kind == EventKind::Commit {
            self.hold_until(&self.committed);
        }
    }

    fn after(&self, session: u32, kind: EventKind) {
        if session == 1 && kind == EventKind::Name {
            self.named.store(true, Ordering::SeqCst);
        }
        if session == 2 && kind == EventKind::Commit {
            self.committed.store(true, Ordering::SeqCst);
        }
    }
}

impl Gate for HoldingGate {
    fn at(&self, session: u32, place: Place) {
        self.calls.fetch_add(1, Ordering::SeqCst);
        match place {
            Place::Before { kind, number: _ } => self.before(session, kind),
            Place::After {
                kind,
                number: _,
                ready,
            } => {
                if ready {
                    self.ready.fetch_add(1, Ordering::SeqCst);
                }
                self.after(session, kind);
            }
        }
    }
}

// Both sessions' four events are told before and after; both commits are ready, since each is checked before its turn and nothing
// that its check read is changed until then.
#[test]
fn sessions_are_held(rt: HostRuntime) -> Result<(), Fail> {
    let alloc = rt.alloc();
    let held = vec![in alloc;
        file_of(alloc, "f", FIRST_RUN)?,
        file_of(alloc, "g", SECOND_RUN)?,
    ]?;
    let mut files = MemFiles::new(alloc, held, Vec::new(alloc));
    let mut out = MemSink::new(alloc, 1000, 1000, Vec::new(alloc))?;
    let mut maker = RegexMaker::new(alloc);
    let gate = HoldingGate {
        named: AtomicBool::new(false),
        committed: AtomicBool::new(false),
        calls: AtomicU64::new(0),
        ready: AtomicU64::new(0),
        spent: AtomicU64::new(0),
    };
    let words = ["shacl_guard", "run", "f", "g"];
    let disk = MemDisk::new(alloc, Vec::new(alloc), Vec::new(alloc), 0)?;
    let (status, _) = run(
        &rt, alloc, &words, &mut files, &mut out, &mut maker, &gate, disk,
    );
    assert_eq!(rt; status, Status::Done);
    assert_eq!(rt; gate.spent.load(Ordering::SeqCst), 0);
    assert_eq!(rt; gate.calls.load(Ordering::SeqCst), 16);
    assert_eq!(rt; gate.ready.load(Ordering::SeqCst), 2);
    let sessions =
        b"session 1\nbegin 0\nadd 1\ncommit 2\nsession 2\nbegin 0\nadd 1\ncommit 1\nhistory 1 2 ";
    assert!(rt; out.taken().starts_with(sessions.as_slice()));
    assert!(rt; out.taken().ends_with(b" 1\n".as_slice()));
    Ok(())
}
