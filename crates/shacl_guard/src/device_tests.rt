// Devices each of whose calls fails once, each length of a short write, and patterns that are refused, through `run` with the
// forms in memory.
ghost use Rattle.std.specs.Prelude.{◌<◌};

use crate::{Status, run};
use disk::MemDisk;
use outside::{FakeMaker, MemFile, MemFiles, MemSink, OpenGate, RegexMaker};
use std::alloc::{AllocError, Global};
use std::sync::Wait;
use std::test::Fail;
use std::thread::Threads;

const HISTORY: &str = "history 1 2 1 1 1 1 2";

const WRITER: &str = "begin\nadd ntriples\n<e:a> <e:p> <e:b> .\n%%\ncommit\n";

const READER: &str = "begin\nfind <e:a> ? ?\ncommit\n";

// What a replay of the two sessions prints.
const PRINTED: &[u8] =
    b"session 1\nbegin 0\nadd 1\ncommit 1\nsession 2\nbegin 1\nfind 1\n<e:a> <e:p> <e:b> .\nread only 1\nhistory 1 2 1 1 1 1 2\n";

// How long it is.
const LENGTH: usize = 112;

const LOADS: u64 = 3;

// In pieces of eight bytes.
const WRITES: u64 = 14;

fn file_of(alloc: Global, name: &str, text: &str) -> Result<MemFile, AllocError> {
    Ok(MemFile {
        name: String::from_str(alloc, name)?,
        bytes: text.as_bytes().to_vec(alloc)?,
    })
}

fn numbered(alloc: Global, number: u64) -> Result<Vec<u64>, AllocError> {
    Ok(vec![in alloc; number]?)
}

// Replays the two sessions; the load and the write with these numbers fail, and a write takes so many bytes at most.
fn replayed<R: Threads + Wait + Sync>(
    rt: &R,
    alloc: Global,
    load: u64,
    write: u64,
    most: usize,
) -> Result<(Status, MemSink), Fail>
    requires { 0 < most }
{
    let held = vec![in alloc;
        file_of(alloc, "h", HISTORY)?,
        file_of(alloc, "f", WRITER)?,
        file_of(alloc, "g", READER)?,
    ]?;
    let mut files = MemFiles::new(alloc, held, numbered(alloc, load)?);
    let mut out = MemSink::new(alloc, most, 1000, numbered(alloc, write)?)?;
    let mut maker = RegexMaker::new(alloc);
    let words = ["shacl_guard", "replay", "h", "f", "g"];
    let disk = MemDisk::new(alloc, Vec::new(alloc), Vec::new(alloc), 0)?;
    let (status, _) = run(
        rt, alloc, &words, &mut files, &mut out, &mut maker, &OpenGate, disk,
    );
    Ok((status, out))
}

// Behind the last load none is made, so that a failure of it comes never.
#[test]
fn each_load_may_fail(rt: HostRuntime) -> Result<(), Fail> {
    for load in 1..LOADS + 1 {
        let (status, out) = replayed(&rt, rt.alloc(), load, 0, 1000)?;
        assert_eq!(rt; status, Status::ReadFault, "load {load}");
        assert_eq!(rt; out.calls(), 0, "load {load}");
    }
    let (status, out) = replayed(&rt, rt.alloc(), LOADS + 1, 0, 1000)?;
    assert_eq!(rt; status, Status::Done);
    assert_eq!(rt; out.taken(), PRINTED);
    Ok(())
}

#[test]
fn each_write_may_fail(rt: HostRuntime) -> Result<(), Fail> {
    for write in 1..WRITES + 1 {
        let (status, out) = replayed(&rt, rt.alloc(), 0, write, 8)?;
        assert_eq!(rt; status, Status::WriteFault, "write {write}");
        assert_eq!(rt; out.taken().len() as u64, 8 * (write - 1), "write {write}");
        assert!(rt; PRINTED.starts_with(out.taken()), "write {write}");
        assert_eq!(rt; out.calls(), write, "write {write}");
    }
    let (status, out) = replayed(&rt, rt.alloc(), 0, WRITES + 1, 8)?;
    assert_eq!(rt; status, Status::Done);
    assert_eq!(rt; out.taken(), PRINTED);
    Ok(())
}

// Whatever a sink takes of a piece, what is left is offered again.
#[test]
fn each_write_may_be_short(rt: HostRuntime) -> Result<(), Fail> {
    for most in 1..LENGTH + 2 {
        let (status, out) = replayed(&rt, rt.alloc(), 0, 0, most)?;
        assert_eq!(rt; status, Status::Done, "{most} bytes");
        assert_eq!(rt; out.taken(), PRINTED, "{most} bytes");
        assert_eq!(rt; out.calls(), LENGTH.div_ceil(most) as u64, "{most} bytes");
    }
    Ok(())
}

const PATTERN: &str = r#"begin
shapes turtle
@prefix sh: <http://www.w3.org/ns/shacl#> .
<e:S> sh:targetNode <e:a> ; sh:property <e:P> .
<e:P> sh:path <e:p> ; sh:pattern "^a+$" .
%%
add ntriples
<e:a> <e:p> "aa" .
<e:a> <e:p> "b" .
%%
commit
"#;

const WITHOUT_SHAPES: &[u8] =
    b"session 1\nbegin 0\nbad shapes pattern <e:P>\nadd 2\ncommit 1\nhistory 1 1 1 1 1\n";

const REFUSED: &[u8] = b"session 1
begin 0
shapes 4
add 2
refused 1
@prefix sh: <http://www.w3.org/ns/shacl#> .
_:r a sh:ValidationReport .
_:r sh:conforms false .
_:r sh:result _:r1 .
_:r1 a sh:ValidationResult .
_:r1 sh:focusNode <e:a> .
_:r1 sh:resultPath <e:p> .
_:r1 sh:value \"b\" .
_:r1 sh:resultSeverity <http://www.w3.org/ns/shacl#Violation> .
_:r1 sh:sourceShape <e:P> .
_:r1 sh:sourceConstraintComponent sh:PatternConstraintComponent .
end
history 1 1 1 1 1 1
";

// The file has one pattern. Where it is refused its shapes are not staged, and the commit stands.
#[test]
fn a_pattern_may_be_refused(rt: HostRuntime) -> Result<(), Fail> {
    let alloc = rt.alloc();
    for (build, due) in [(1, WITHOUT_SHAPES), (2, REFUSED)] {
        let held = vec![in alloc; file_of(alloc, "f", PATTERN)?]?;
        let mut files = MemFiles::new(alloc, held, Vec::new(alloc));
        let mut out = MemSink::new(alloc, 1000, 1000, Vec::new(alloc))?;
        let mut maker = FakeMaker::new(alloc, RegexMaker::new(alloc), numbered(alloc, build)?);
        let words = ["shacl_guard", "run", "f"];
        let disk = MemDisk::new(alloc, Vec::new(alloc), Vec::new(alloc), 0)?;
        let (status, _) = run(
            &rt, alloc, &words, &mut files, &mut out, &mut maker, &OpenGate, disk,
        );
        assert_eq!(rt; status, Status::Done, "build {build}");
        assert_eq!(rt; out.taken(), due, "build {build}");
    }
    Ok(())
}
