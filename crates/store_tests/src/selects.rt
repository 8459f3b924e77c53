// How many bindings a select answers.
use commit_core::{BlockMode, Limits};
use outside::RegexMaker;
use session_player::{run_all, text_of};
use session_reader::prepare;
use std::alloc::{AllocError, Global};
use std::test::Fail;
use std::thread::Threads;

const LIMITS: Limits = Limits {
    terms: 1000,
    triples: 1000,
    mode: BlockMode::All,
};

// A session that adds so many triples, and asks for each of them beside each.
fn pairs(alloc: Global, count: u32) -> Result<String, AllocError> {
    let mut file = String::from_str(alloc, "%session 2\nbegin\nadd ntriples\n")?;
    for i in 0..count {
        write!(file, "<e:a{i}> <e:p> <e:b{i}> .\n")?;
    }
    file.push_str("%%\nselect\n?x <e:p> ?u\n?y <e:p> ?v\n%%\ncommit\n")?;
    Ok(file)
}

// What the session prints.
fn printed<T: Threads + Sync>(rt: &T, alloc: Global, count: u32) -> Result<String, Fail> {
    let file = pairs(alloc, count)?;
    if file.len() > 50000 {
        return Err(Fail::new("the file is short"));
    }
    let mut maker = RegexMaker::new(alloc);
    let Ok(commands) = prepare(alloc, &mut maker, 1, 1, file.as_bytes()) else {
        return Err(Fail::new("the file is read"));
    };
    let run = run_all(rt, alloc, LIMITS, vec![in alloc; commands]?)?;
    Ok(text_of(alloc, &run)?)
}

#[test]
fn more_than_100000_bindings_are_none(rt: HostRuntime) -> Result<(), Fail> {
    let text = printed(&rt, rt.alloc(), 317)?;
    let want = "session 1\nbegin 0\nadd 317\nselect full\ncommit 1\nhistory 1 1 1 1 1\n";
    assert_eq!(rt; text.as_str(), want);
    Ok(())
}

#[test]
fn fewer_are_answered(rt: HostRuntime) -> Result<(), Fail> {
    let text = printed(&rt, rt.alloc(), 316)?;
    let begin = "session 1\nbegin 0\nadd 316\nselect 99856\n\
        <e:a0> <e:b0> <e:a0> <e:b0> .\n<e:a0> <e:b0> <e:a1> <e:b1> .\n";
    let end = "<e:a99> <e:b99> <e:a99> <e:b99> .\ncommit 1\nhistory 1 1 1 1 1\n";
    assert!(rt; text.starts_with(begin) && text.ends_with(end));
    let lines = text
        .as_bytes()
        .iter()
        .filter(|byte| **byte == b'\n')
        .count();
    assert_eq!(rt; lines, 99862);
    Ok(())
}
