// Logs through `run` with the forms in memory: what is printed, what the disk has then, and a stop at each of its calls.
use crate::tests::file_of;
use crate::{Status, run};
use disk::MemDisk;
use outside::{MemFile, MemFiles, MemSink, OpenGate, RegexMaker};
use std::alloc::Global;
use std::sync::Wait;
use std::test::Fail;
use std::thread::Threads;

// What the words give with these files and a disk of these bytes, of whose calls the one with this number fails, if any.
pub(crate) fn ended<R: Threads + Wait + Sync>(
    rt: &R,
    alloc: Global,
    words: &[&str],
    held: Vec<MemFile>,
    image: &[u8],
    call: u64,
) -> Result<(Status, MemSink, MemDisk), Fail> {
    let mut files = MemFiles::new(alloc, held, Vec::new(alloc));
    let mut out = MemSink::new(alloc, 1000, 1000, Vec::new(alloc))?;
    let mut maker = RegexMaker::new(alloc);
    let fail = vec![in alloc; call]?;
    let disk = MemDisk::new(alloc, image.to_vec(alloc)?, fail, 0)?;
    let (status, disk) = run(
        rt, alloc, words, &mut files, &mut out, &mut maker, &OpenGate, disk,
    );
    Ok((status, out, disk))
}

const CREATE: [&str; 3] = ["shacl_guard", "create-log", "l"];

const RUN: [&str; 5] = ["shacl_guard", "run", "--log", "l", "f"];

// A log without a record, one that a commit of a triple leaves, and one that the same commit leaves behind it.
const EMPTY: &[u8] = b"SGLOG 1\n\0";

const ONE: &[u8] = b"SGLOG 1\n\x01\0\0\0\0\0\0\0\x1Fcommit 1\n+ <e:a> <e:p> <e:b> .\n\0";

pub(crate) const TWO: &[u8] =
    b"SGLOG 1\n\x01\0\0\0\0\0\0\0\x1Fcommit 1\n+ <e:a> <e:p> <e:b> .\n\x01\0\0\0\0\0\0\0\x09commit 2\n\0";

const COMMIT: &[u8] = b"begin\nadd ntriples\n<e:a> <e:p> <e:b> .\n%%\ncommit\n";

const STAGED: &[u8] =
    b"SGLOG 1\n\x01\0\0\0\0\0\0\0\x3Ccommit 1\n+ <e:a> <e:p> <e:b> .\nshapes 1\n<e:S> <e:p> <e:b> .\n\0";

const NODE: &[u8] = b"SGLOG 1\n\x01\0\0\0\0\0\0\0\x20commit 1\n+ _:s1x5 <e:p> <e:b> .\n\0";

const NODES: &[u8] =
    b"SGLOG 1\n\x01\0\0\0\0\0\0\0\x20commit 1\n+ _:s1x5 <e:p> <e:b> .\n\x01\0\0\0\0\0\0\0\x20commit 2\n+ _:s1x6 <e:p> <e:c> .\n\0";

// Its shapes let nothing be the subject of a triple with this predicate.
const GUARDED: &[u8] =
    b"SGLOG 1\n\x01\0\0\0\0\0\0\0\xA1commit 1\nshapes 2\n<e:S> <http://www.w3.org/ns/shacl#nodeKind> <http://www.w3.org/ns/shacl#Literal> .\n<e:S> <http://www.w3.org/ns/shacl#targetSubjectsOf> <e:p> .\n\0";

const REFUSED: &[u8] = b"session 1
begin 1
add 1
refused 1
@prefix sh: <http://www.w3.org/ns/shacl#> .
_:r a sh:ValidationReport .
_:r sh:conforms false .
_:r sh:result _:r1 .
_:r1 a sh:ValidationResult .
_:r1 sh:focusNode <e:a> .
_:r1 sh:value <e:a> .
_:r1 sh:resultSeverity <http://www.w3.org/ns/shacl#Violation> .
_:r1 sh:sourceShape <e:S> .
_:r1 sh:sourceConstraintComponent sh:NodeKindConstraintComponent .
end
history 1 1 1 1 1
";

// Each row: what the disk has, a session file, what is printed, and what the disk has then. The record of a commit has what was
// added and the shapes; the store goes on with the version, the numbers of blank nodes and the shapes of the records.
#[test]
fn logs_go_on(rt: HostRuntime) -> Result<(), Fail> {
    let alloc = rt.alloc();
    let (made, out, disk) = ended(&rt, alloc, &CREATE, Vec::new(alloc), b"", 0)?;
    assert_eq!(rt; made, Status::Done);
    assert_eq!(rt; out.taken(), b"".as_slice());
    assert_eq!(rt; disk.bytes(), EMPTY);
    let rows: [(&[u8], &[u8], &[u8], &[u8]); 5] = [
        (
            EMPTY,
            COMMIT,
            b"session 1\nbegin 0\nadd 1\ncommit 1\nhistory 1 1 1 1 1\n",
            ONE,
        ),
        (
            ONE,
            COMMIT,
            b"session 1\nbegin 1\nadd 1\ncommit 2\nhistory 1 1 1 1 1\n",
            TWO,
        ),
        (
            EMPTY,
            b"begin\nshapes ntriples\n<e:S> <e:p> <e:b> .\n%%\nadd ntriples\n<e:a> <e:p> <e:b> .\n%%\ncommit\n",
            b"session 1\nbegin 0\nshapes 1\nadd 1\ncommit 1\nhistory 1 1 1 1 1 1\n",
            STAGED,
        ),
        (
            NODE,
            b"begin\nadd ntriples\n_:b <e:p> <e:c> .\n%%\nfind ? <e:p> ?\ncommit\n",
            b"session 1\nbegin 1\nadd 1\nfind 2\n_:s1x5 <e:p> <e:b> .\n_:s1x6 <e:p> <e:c> .\ncommit 2\nhistory 1 1 1 1 1\n",
            NODES,
        ),
        (GUARDED, COMMIT, REFUSED, GUARDED),
    ];
    for (image, text, printed, left) in rows {
        let held = vec![in alloc; file_of(alloc, "f", text)?]?;
        let (status, out, disk) = ended(&rt, alloc, &RUN, held, image, 0)?;
        assert_eq!(rt; status, Status::Done);
        assert_eq!(rt; out.taken(), printed);
        assert_eq!(rt; disk.bytes(), left);
    }
    Ok(())
}

// Its second record adds a triple that is there.
const MISFIT: &[u8] =
    b"SGLOG 1\n\x01\0\0\0\0\0\0\0\x1Fcommit 1\n+ <e:a> <e:p> <e:b> .\n\x01\0\0\0\0\0\0\0\x1Fcommit 2\n+ <e:a> <e:p> <e:b> .\n\0";

// The shapes of its first record break a rule.
const BROKEN: &[u8] =
    b"SGLOG 1\n\x01\0\0\0\0\0\0\0\x47commit 1\nshapes 1\n<e:S> <http://www.w3.org/ns/shacl#targetClass> \"x\" .\n\x01\0\0\0\0\0\0\0\x09commit 2\n\0";

const PATTERN: &[u8] =
    b"SGLOG 1\n\x01\0\0\0\0\0\0\0\x73commit 1\nshapes 2\n<e:P> <http://www.w3.org/ns/shacl#path> <e:p> .\n<e:P> <http://www.w3.org/ns/shacl#pattern> \"(\" .\n\0";

// It also takes out what isn't there.
const SPENT: &[u8] =
    b"SGLOG 1\n\x01\0\0\0\0\0\0\0\x29commit 1\n- <e:a> <e:p> _:s1x4278190079 .\n\0";

// Its graph has a result.
const BLOCKED: &[u8] =
    b"SGLOG 1\n\x01\0\0\0\0\0\0\0\xB7commit 1\n+ <e:a> <e:p> <e:b> .\nshapes 2\n<e:S> <http://www.w3.org/ns/shacl#nodeKind> <http://www.w3.org/ns/shacl#Literal> .\n<e:S> <http://www.w3.org/ns/shacl#targetSubjectsOf> <e:p> .\n\x01\0\0\0\0\0\0\0\x09commit 2\n\0";

// What has bytes isn't made a log; and images that are none, or whose records restore no store. The disk stays as it is.
#[test]
fn logs_are_refused(rt: HostRuntime) -> Result<(), Fail> {
    let alloc = rt.alloc();
    let small = ["shacl_guard", "run", "--max-terms", "1", "--log", "l", "f"];
    let rows: [(&[&str], &[u8], u8, &[u8]); 9] = [
        (&CREATE, EMPTY, 11, b"error log record 0\n"),
        (&RUN, b"SGLOG 1\n", 11, b"error log record 0\n"),
        (
            &RUN,
            b"SGLOG 1\n\x01\0\0\0\0\0\0\0\x09commit 2\n\0",
            11,
            b"error log record 1\n",
        ),
        (&RUN, MISFIT, 11, b"error log record 2\n"),
        (&RUN, BROKEN, 11, b"error log record 1\n"),
        (&RUN, PATTERN, 10, b"error shapes pattern <e:P>\n"),
        (&RUN, SPENT, 12, b"error log spent\n"),
        (&small, BLOCKED, 13, b"error log too large\n"),
        (&RUN, BLOCKED, 11, b"error log record 2\n"),
    ];
    for (words, image, code, printed) in rows {
        let held = vec![in alloc; file_of(alloc, "f", COMMIT)?]?;
        let (status, out, disk) = ended(&rt, alloc, words, held, image, 0)?;
        assert_eq!(rt; status.code(), code);
        assert_eq!(rt; out.taken(), printed);
        assert_eq!(rt; disk.bytes(), image);
    }
    Ok(())
}

const COMMITS: &[u8] =
    b"begin\nadd ntriples\n<e:a> <e:p> <e:b> .\n%%\ncommit\nbegin\nadd ntriples\n<e:a> <e:p> <e:c> .\n%%\ncommit\n";

// What is printed where the log fails at the first commit, at the second one, or at none.
const NONE_DONE: &[u8] =
    b"session 1\nbegin 0\nadd 1\nlog fault\nbegin 0\nadd 1\nstopped 0\nhistory 1 1 1 1 1 1 1 1 1\n";

const ONE_DONE: &[u8] =
    b"session 1\nbegin 0\nadd 1\ncommit 1\nbegin 1\nadd 1\nlog fault\nhistory 1 1 1 1 1 1 1 1 1\n";

const BOTH_DONE: &[u8] =
    b"session 1\nbegin 0\nadd 1\ncommit 1\nbegin 1\nadd 1\ncommit 2\nhistory 1 1 1 1 1 1 1 1 1\n";

// What a session that changes nothing prints over a store of no commit, of one and of two.
const AT_0: &[u8] = b"session 1\nbegin 0\nread only 0\nhistory 1 1\n";

const AT_1: &[u8] = b"session 1\nbegin 1\nread only 1\nhistory 1 1\n";

const AT_2: &[u8] = b"session 1\nbegin 2\nread only 2\nhistory 1 1\n";

// What a session that changes nothing prints over the store of this image.
fn told_by<R: Threads + Wait + Sync>(rt: &R, alloc: Global, image: &[u8]) -> Result<MemSink, Fail> {
    let held = vec![in alloc; file_of(alloc, "f", b"begin\ncommit\n")?]?;
    let (_, out, _) = ended(rt, alloc, &RUN, held, image, 0)?;
    Ok(out)
}

// Each row: the call that fails, the status and what is printed, and which store is restored of what a read gives then, and of
// what the last sync made durable. The log is opened by the calls 1 to 4, and a commit takes four.
#[test]
fn a_stop_at_each_call(rt: HostRuntime) -> Result<(), Fail> {
    let alloc = rt.alloc();
    let rows: [(u64, u8, &[u8], &[u8], &[u8]); 13] = [
        (1, 3, b"", AT_0, AT_0),
        (2, 3, b"", AT_0, AT_0),
        (3, 3, b"", AT_0, AT_0),
        (4, 3, b"", AT_0, AT_0),
        (5, 14, NONE_DONE, AT_0, AT_0),
        (6, 14, NONE_DONE, AT_0, AT_0),
        (7, 14, NONE_DONE, AT_0, AT_0),
        (8, 14, NONE_DONE, AT_1, AT_0),
        (9, 14, ONE_DONE, AT_1, AT_1),
        (10, 14, ONE_DONE, AT_1, AT_1),
        (11, 14, ONE_DONE, AT_1, AT_1),
        (12, 14, ONE_DONE, AT_2, AT_1),
        (13, 0, BOTH_DONE, AT_2, AT_2),
    ];
    for (call, code, printed, read, durable) in rows {
        let held = vec![in alloc; file_of(alloc, "f", COMMITS)?]?;
        let (status, out, disk) = ended(&rt, alloc, &RUN, held, EMPTY, call)?;
        assert_eq!(rt; status.code(), code, "call {call}");
        assert_eq!(rt; out.taken(), printed, "call {call}");
        let again = told_by(&rt, alloc, disk.bytes())?;
        assert_eq!(rt; again.taken(), read, "call {call}");
        let again = told_by(&rt, alloc, disk.moment().durable())?;
        assert_eq!(rt; again.taken(), durable, "call {call}");
    }
    Ok(())
}
