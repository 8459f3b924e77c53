// Each kind of pattern, found before changes and after them, over a store that was validated and over one that was not.
use commit_core::{BlockMode, Limits};
use outside::RegexMaker;
use session_player::{run_all, text_of};
use session_reader::prepare;
use std::alloc::{AllocError, Global};
use std::test::Fail;
use std::thread::Threads;

const LIMITS: Limits = Limits {
    terms: 100,
    triples: 100,
    mode: BlockMode::All,
};

// A block with one shape, which has no target: where it is staged, the graph is numbered and validated.
const SHAPES: &str = "shapes ntriples
<e:s> <http://www.w3.org/1999/02/22-rdf-syntax-ns#type> <http://www.w3.org/ns/shacl#NodeShape> .
%%
";

// After the block: a commit of <e:c> <e:q> <e:a>, whose terms so have lower numbers than others that stand before them,
// and one of four more triples; a find, changes that meet and undo each other, and a find of each kind.
const COMMANDS: &str = "add ntriples
<e:c> <e:q> <e:a> .
%%
commit
begin
add ntriples
<e:a> <e:p> <e:b> .
<e:a> <e:p> <e:c> .
<e:a> <e:q> <e:b> .
<e:b> <e:p> <e:c> .
%%
commit
begin
find ? <e:q> ?
remove ntriples
<e:a> <e:p> <e:c> .
<e:c> <e:q> <e:a> .
%%
find ? <e:q> ?
add ntriples
<e:b> <e:q> <e:c> .
<e:c> <e:q> <e:a> .
<e:d> <e:p> <e:b> .
%%
remove ntriples
<e:d> <e:p> <e:b> .
<e:x> <e:p> <e:b> .
%%
find ? ? ?
find <e:a> ? ?
find ? <e:q> ?
find ? ? <e:c>
find <e:a> <e:p> ?
find <e:b> ? <e:c>
find ? <e:p> <e:b>
find <e:c> <e:q> <e:a>
find ? <e:n> ?
abort
";

// The graph that the last finds see: a p b, a q b, b p c, b q c, c q a.
const REPLIES: &str = "add 1
commit 1
begin 1
add 4
commit 2
begin 2
find 2
<e:a> <e:q> <e:b> .
<e:c> <e:q> <e:a> .
remove 2
find 1
<e:a> <e:q> <e:b> .
add 3
remove 2
find 5
<e:a> <e:p> <e:b> .
<e:a> <e:q> <e:b> .
<e:b> <e:p> <e:c> .
<e:b> <e:q> <e:c> .
<e:c> <e:q> <e:a> .
find 2
<e:a> <e:p> <e:b> .
<e:a> <e:q> <e:b> .
find 3
<e:a> <e:q> <e:b> .
<e:b> <e:q> <e:c> .
<e:c> <e:q> <e:a> .
find 2
<e:b> <e:p> <e:c> .
<e:b> <e:q> <e:c> .
find 1
<e:a> <e:p> <e:b> .
find 2
<e:b> <e:p> <e:c> .
<e:b> <e:q> <e:c> .
find 1
<e:a> <e:p> <e:b> .
find 1
<e:c> <e:q> <e:a> .
find 0
abort
";

// The session with this block, or none.
fn session_with(alloc: Global, block: &str) -> Result<String, AllocError> {
    let mut file = String::new(alloc);
    write!(file, "begin\n{block}{COMMANDS}")?;
    Ok(file)
}

// What it prints: the reply to the block, if there is one, and its event stand beside the others.
fn replies_with(alloc: Global, reply: &str, event: &str) -> Result<String, AllocError> {
    let mut text = String::new(alloc);
    write!(
        text,
        "session 1\nbegin 0\n{reply}{REPLIES}history 1 1 1 1 1 1 1 1 1 1 1 1 1{event}\n"
    )?;
    Ok(text)
}

// What the session of a file prints.
fn printed<T: Threads + Sync>(rt: &T, alloc: Global, file: &str) -> Result<String, Fail> {
    if file.len() > 5000 {
        return Err(Fail::new("the file is short"));
    }
    let mut maker = RegexMaker::new(alloc);
    let Ok(commands) = prepare(alloc, &mut maker, 1, 1, file.as_bytes()) else {
        return Err(Fail::new("the file is read"));
    };
    let run = run_all(rt, alloc, LIMITS, vec![in alloc; commands]?)?;
    Ok(text_of(alloc, &run)?)
}

#[test]
fn patterns_before_a_validation(rt: HostRuntime) -> Result<(), Fail> {
    let alloc = rt.alloc();
    let text = printed(&rt, alloc, session_with(alloc, "")?.as_str())?;
    let want = replies_with(alloc, "", "")?;
    assert_eq!(rt; text.as_str(), want.as_str());
    Ok(())
}

#[test]
fn patterns_after_a_validation(rt: HostRuntime) -> Result<(), Fail> {
    let alloc = rt.alloc();
    let text = printed(&rt, alloc, session_with(alloc, SHAPES)?.as_str())?;
    let want = replies_with(alloc, "shapes 1\n", " 1")?;
    assert_eq!(rt; text.as_str(), want.as_str());
    Ok(())
}
