//! The forms in memory, and the maker of the crate `regex`.
use outside::{
    EventKind, FakeMaker, Files, Gate, HostFiles, HostSink, LoadFault, MakeFault, Maker, MemFile,
    MemFiles, MemSink, OpenGate, Place, RegexMaker, write_all,
};
use std::alloc::{AllocError, Global};
use std::fmt::Debug;
use std::process::Abort;
use std::test::Fail;

// Ends the test where something else is found than is wanted.
fn same<T: PartialEq + Debug + Drop>(rt: &impl Abort, what: &str, found: T, wanted: T) {
    assert_eq!(rt; found, wanted, "{what}");
}

fn mem_file(alloc: Global, name: &str, bytes: &[u8]) -> Result<MemFile, AllocError> {
    let name = String::from_str(alloc, name)?;
    Ok(MemFile {
        name,
        bytes: bytes.to_vec(alloc)?,
    })
}

// Files `a`, which holds `hello`, and `b`, which holds nothing.
fn two_files(alloc: Global, fail: &[u64]) -> Result<MemFiles, AllocError> {
    let mut files = Vec::new(alloc);
    for (name, bytes) in [("a", "hello"), ("b", "")] {
        files.push(mem_file(alloc, name, bytes.as_bytes())?)?;
    }
    Ok(MemFiles::new(alloc, files, fail.to_vec(alloc)?))
}

// The load gives these bytes, or this fault.
fn expect_load<F: Files>(
    rt: &impl Abort,
    alloc: Global,
    files: &mut F,
    name: &str,
    room: usize,
    want: Result<&[u8], LoadFault>,
) {
    match files.load(alloc, name, room) {
        Ok(bytes) => same(rt, name, Ok(bytes.as_slice()), want),
        Err(fault) => same(rt, name, Err(fault), want),
    }
}

// The loads with these numbers fail, and the loads of `a`, `b` and `c` have these answers.
fn expect_loads(
    rt: &impl Abort,
    alloc: Global,
    fail: &[u64],
    room: usize,
    wants: [Result<&[u8], LoadFault>; 3],
) -> Result<(), AllocError> {
    let mut files = two_files(alloc, fail)?;
    expect_load(rt, alloc, &mut files, "a", room, wants[0]);
    expect_load(rt, alloc, &mut files, "b", room, wants[1]);
    expect_load(rt, alloc, &mut files, "c", room, wants[2]);
    Ok(())
}

const FAILED: Result<&[u8], LoadFault> = Err(LoadFault::Failed);

#[test]
fn files_in_memory(rt: HostRuntime) -> Result<(), Fail> {
    let alloc = rt.alloc();
    expect_loads(&rt, alloc, &[], 9, [Ok(b"hello"), Ok(b""), FAILED])?;
    expect_loads(&rt, alloc, &[], 3, [Ok(b"hel"), Ok(b""), FAILED])?;
    expect_loads(&rt, alloc, &[2], 5, [Ok(b"hello"), FAILED, FAILED])?;
    Ok(())
}

const TEXT: &[u8] = b"0123456789012345678901234567890123456789";

// Forty bytes into a sink that takes at most so many a call and has so much room, of which these writes fail; how much is
// taken, the faults, and the writes. Each offers all that is left, so no more are made than the sink asks for.
const SINKS: [(usize, usize, &[u64], usize, u64, u64); 4] = [
    (8, 40, &[], 40, 0, 5),
    (8, 40, &[3], 16, 1, 3),
    (8, 20, &[], 20, 1, 4),
    (100, 40, &[2], 40, 0, 1),
];

fn assert_sink(rt: &impl Abort, sink: &mut MemSink, taken: usize, faults: u64, calls: u64) {
    let is_all = write_all(sink, TEXT).is_ok();
    same(rt, "is all taken", is_all, faults == 0);
    same(rt, "bytes", sink.taken(), &TEXT[..taken.min(40)]);
    same(rt, "faults", sink.faults(), faults);
    same(rt, "calls", sink.calls(), calls);
}

#[test]
fn a_sink_that_fails(rt: HostRuntime) -> Result<(), Fail> {
    for (most, room, fail, taken, faults, calls) in SINKS {
        assert!(rt; most > 0);
        let fail = fail.to_vec(rt.alloc())?;
        let mut sink = MemSink::new(rt.alloc(), most, room, fail)?;
        assert_sink(&rt, &mut sink, taken, faults, calls);
    }
    Ok(())
}

// Whether the pattern is found in the text.
fn is_found(
    alloc: Global,
    maker: &mut impl Maker,
    pattern: &str,
    flags: &str,
    text: &str,
) -> Result<bool, MakeFault> {
    let regex = maker.build(alloc, pattern, flags)?;
    Ok(regex.matcher(alloc)?.is_match(text))
}

// The answer in one word.
fn said(answer: Result<bool, MakeFault>) -> &'static str {
    match answer {
        Ok(true) => "found",
        Ok(false) => "none",
        Err(MakeFault::Refused) => "refused",
        Err(MakeFault::Memory) => "memory",
    }
}

// A pattern, its flags, a text, and the answer.
type Pattern = (&'static str, &'static str, &'static str, &'static str);

fn expect_patterns<M: Maker>(rt: &impl Abort, alloc: Global, maker: &mut M, rows: &[Pattern]) {
    for (pattern, flags, text, want) in rows {
        let answer = said(is_found(alloc, maker, *pattern, *flags, *text));
        same(rt, *pattern, answer, *want);
    }
}

const PATTERNS: [Pattern; 9] = [
    ("^a+$", "i", "AA", "found"),
    ("^a+$", "", "AA", "none"),
    ("^a.b$", "s", "a\nb", "found"),
    ("^a.b$", "", "a\nb", "none"),
    ("^b$", "m", "a\nb", "found"),
    ("^b$", "", "a\nb", "none"),
    ("^a b$", "x", "ab", "found"),
    ("^a b$", "", "ab", "none"),
    ("(", "", "", "refused"),
];

#[test]
fn patterns(rt: HostRuntime) {
    let mut maker = RegexMaker::new(rt.alloc());
    expect_patterns(&rt, rt.alloc(), &mut maker, &PATTERNS);
}

// The second pattern is refused, whatever it is.
const SECOND_REFUSED: [Pattern; 4] = [
    ("^a+$", "", "aa", "found"),
    ("^a+$", "", "aa", "refused"),
    ("^a+$", "", "b", "none"),
    ("(", "", "b", "refused"),
];

#[test]
fn a_maker_that_refuses(rt: HostRuntime) -> Result<(), Fail> {
    let refuse = [2u64].to_vec(rt.alloc())?;
    let mut fake = FakeMaker::new(rt.alloc(), RegexMaker::new(rt.alloc()), refuse);
    expect_patterns(&rt, rt.alloc(), &mut fake, &SECOND_REFUSED);
    Ok(())
}

fn expect_real_loads<R: Abort + std::rt::Files>(rt: &R, alloc: Global, name: &str) {
    let mut files = HostFiles::new(alloc, rt);
    expect_load(rt, alloc, &mut files, name, 3, Ok(b"hel"));
    expect_load(rt, alloc, &mut files, name, 9, Ok(b"hello"));
    let missing = "outside_test_missing.txt";
    expect_load(rt, alloc, &mut files, missing, 9, FAILED);
}

#[test]
fn the_real_forms(rt: HostRuntime) -> Result<(), Fail> {
    let name = "outside_test.txt";
    let written = std::fs::write(&rt, name, "hello").is_ok();
    expect_real_loads(&rt, rt.alloc(), name);
    let removed = std::fs::remove_file(&rt, name).is_ok();
    let printed = write_all(&mut HostSink::new(&rt), b"to standard output\n").is_ok();
    same(
        &rt,
        "written, removed, printed",
        (written, removed, printed),
        (true, true, true),
    );
    OpenGate.at(
        1,
        Place::Before {
            kind: EventKind::Begin,
            number: 2,
        },
    );
    Ok(())
}
