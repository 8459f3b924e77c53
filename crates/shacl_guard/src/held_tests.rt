// Two sessions of which one reads what the other changes, held by a gate at chosen events, through `run` with the forms in memory.
use crate::{Status, run};
use disk::MemDisk;
use outside::{Gate, MemFile, MemFiles, MemSink, Place, RegexMaker};
use std::alloc::{AllocError, Global};
use std::sync::atomic::{AtomicBool, Ordering};
use std::test::Fail;
use std::thread;

const READER: &str = "begin\nfind ? <e:p> ?\nadd ntriples\n<e:a> <e:q> <e:b> .\n%%\ncommit\n";

const WRITER: &str =
    "begin\nadd ntriples\n<e:x> <e:r> <e:y> .\n%%\ncommit\nbegin\nadd ntriples\n<e:x> <e:p> <e:y> .\n%%\ncommit\n";

// So often a hold looks for what it waits for, at most; between looks it gives way now and then.
const TURNS: u64 = 1_000_000_000;

const TURNS_BETWEEN: u64 = 100_000;

// An event: its session, and its place in the session, where the opening's is 1.
type Event = (u32, u64);

// No session has this number.
const NEVER: Event = (3, 1);

// The first event waits until the second was answered.
#[derive(Drop)]
struct Hold {
    before: Event,
    until: Event,
    reached: AtomicBool,
    spent: AtomicBool,
}

impl Hold {
    fn new(before: Event, until: Event) -> Hold {
        Hold {
            before,
            until,
            reached: AtomicBool::new(false),
            spent: AtomicBool::new(false),
        }
    }

    fn wait(&self) {
        for turn in 0..TURNS {
            if self.reached.load(Ordering::SeqCst) {
                return;
            }
            if turn % TURNS_BETWEEN == 0 {
                thread::yield_now();
            }
        }
        self.spent.store(true, Ordering::SeqCst);
    }

    // Takes notice of where the session stands.
    fn at(&self, session: u32, place: Place) {
        match place {
            Place::Before { kind: _, number } => {
                if self.before == (session, number) {
                    self.wait();
                }
            }
            Place::After {
                kind: _,
                number,
                ready: _,
            } => {
                if self.until == (session, number) {
                    self.reached.store(true, Ordering::SeqCst);
                }
            }
        }
    }
}

#[derive(Drop)]
struct TwoHolds {
    first: Hold,
    second: Hold,
}

impl Gate for TwoHolds {
    fn at(&self, session: u32, place: Place) {
        self.first.at(session, place);
        self.second.at(session, place);
    }
}

fn file_of(alloc: Global, name: &str, text: &str) -> Result<MemFile, AllocError> {
    Ok(MemFile {
        name: String::from_str(alloc, name)?,
        bytes: text.as_bytes().to_vec(alloc)?,
    })
}

// What is printed behind `session 1` and before the history.
const OVERTAKEN: &[u8] =
    b"session 1\nbegin 0\nfind 0\nadd 1\nconflict 2 <e:x> <e:p> <e:y> .\nsession 2\nbegin 0\nadd 1\ncommit 1\nbegin 1\nadd 1\ncommit 2\nhistory 1 2 1 1 2 2 2 2 2 2 2 2 1 1\n";

const BEHIND: &[u8] =
    b"session 1\nbegin 2\nfind 1\n<e:x> <e:p> <e:y> .\nadd 1\ncommit 3\nsession 2\nbegin 0\nadd 1\ncommit 1\nbegin 1\nadd 1\ncommit 2\nhistory 1 2 2 2 2 2 2 2 2 2 1 1 1 1\n";

// The reader's events behind its opening are Begin, Name, Head and Commit; the writer's are two times these.
#[test]
fn a_reader_is_held(rt: HostRuntime) -> Result<(), Fail> {
    let alloc = rt.alloc();
    // The reader before its Head, and the writer before its first Begin until the reader's Name; the reader before its Begin.
    let rows: [(Event, Event, Event, &[u8]); 2] = [
        ((1, 4), (2, 2), (1, 3), OVERTAKEN),
        ((1, 2), NEVER, NEVER, BEHIND),
    ];
    for (reader, writer, until, due) in rows {
        let held = vec![in alloc; file_of(alloc, "f", READER)?, file_of(alloc, "g", WRITER)?]?;
        let mut files = MemFiles::new(alloc, held, Vec::new(alloc));
        let mut out = MemSink::new(alloc, 1000, 1000, Vec::new(alloc))?;
        let mut maker = RegexMaker::new(alloc);
        let gate = TwoHolds {
            first: Hold::new(reader, (2, 9)),
            second: Hold::new(writer, until),
        };
        let words = ["shacl_guard", "run", "f", "g"];
        let disk = MemDisk::new(alloc, Vec::new(alloc), Vec::new(alloc), 0)?;
        let (status, _) = run(
            &rt, alloc, &words, &mut files, &mut out, &mut maker, &gate, disk,
        );
        assert_eq!(rt; status, Status::Done);
        assert!(rt; !gate.first.spent.load(Ordering::SeqCst));
        assert_eq!(rt; out.taken(), due);
    }
    Ok(())
}
