// A pattern that the maker refuses though it can be read, at one of two shapes.
use commit_core::{BlockMode, Limits};
use outside::{FakeMaker, RegexMaker};
use session_player::{run_all, text_of};
use session_reader::prepare;
use std::alloc::Global;
use std::test::Fail;
use std::thread::Threads;

const LIMITS: Limits = Limits {
    terms: 100,
    triples: 100,
    mode: BlockMode::All,
};

const FILE: &str = "\
begin
shapes ntriples
<e:A> <http://www.w3.org/ns/shacl#pattern> \"^b+$\" .
<e:P> <http://www.w3.org/ns/shacl#pattern> \"^a+$\" .
%%
commit
";

// What the session of a file prints where these builds are refused.
fn printed<T: Threads + Sync>(
    rt: &T,
    alloc: Global,
    file: &str,
    refuse: Vec<u64>,
) -> Result<String, Fail> {
    if file.len() > 1000 {
        return Err(Fail::new("the file is short"));
    }
    let mut maker = FakeMaker::new(alloc, RegexMaker::new(alloc), refuse);
    let Ok(commands) = prepare(alloc, &mut maker, 1, 1, file.as_bytes()) else {
        return Err(Fail::new("the file is read"));
    };
    let run = run_all(rt, alloc, LIMITS, vec![in alloc; commands]?)?;
    Ok(text_of(alloc, &run)?)
}

#[test]
fn the_shape_of_a_refused_pattern_is_told(rt: HostRuntime) -> Result<(), Fail> {
    let alloc = rt.alloc();
    for (refuse, want) in [
        (
            0,
            "session 1\nbegin 0\nshapes 2\ncommit 1\nhistory 1 1 1 1 1\n",
        ),
        (
            1,
            "session 1\nbegin 0\nbad shapes pattern <e:A>\nread only 0\nhistory 1 1\n",
        ),
        (
            2,
            "session 1\nbegin 0\nbad shapes pattern <e:P>\nread only 0\nhistory 1 1\n",
        ),
    ] {
        let text = printed(&rt, alloc, FILE, vec![in alloc; refuse]?)?;
        assert_eq!(rt; text.as_str(), want, "{refuse}");
    }
    Ok(())
}
