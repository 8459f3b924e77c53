//! Followers: answers to records in any order, with repeats and losses, and what is served.

use follower::{AtFault, Fed, Follower, Served};
use rdf_model::{Names, Triples};
use record_text::{Record, read_record};
use std::alloc::Global;
use std::process::Abort;
use std::test::Fail;

// The record that the text is, behind a number in place of `commit`.
fn record_of(rt: &impl Abort, alloc: Global, number: u64, lists: &str) -> Result<Record, Fail> {
    let text = format!(in alloc; "commit {number}\n{lists}")?;
    match read_record(alloc, number, text.as_bytes()) {
        Ok(next) => Ok(next),
        Err(fault) => panic!(rt; "{fault:?} {text}"),
    }
}

// An answer in a line.
fn told(alloc: Global, fed: &Fed) -> Result<String, Fail> {
    Ok(match fed {
        Fed::Differs { number } => format!(in alloc; "differs {number}")?,
        Fed::Known { version } => format!(in alloc; "known {version}")?,
        Fed::Window { version } => format!(in alloc; "window {version}")?,
        Fed::Full { count } => format!(in alloc; "full {count}")?,
        Fed::Waiting { version } => format!(in alloc; "waiting {version}")?,
        Fed::Misfit { number, triple } => format!(in alloc; "misfit {number} {triple}")?,
        Fed::Applied {
            version,
            dropped: None,
        } => format!(in alloc; "applied {version}")?,
        Fed::Applied {
            version,
            dropped: Some(number),
        } => format!(in alloc; "applied {version} misfit {number}")?,
    })
}

// The triples that are served: those of the data graph in the order of the numbers of their terms, which these have by the first
// record that was applied or kept with them; and those of the shapes graph.
fn shown(alloc: Global, served: &Served) -> Result<String, Fail> {
    let mut text = String::new(alloc);
    for predicate in 0..served.names.count() {
        for (subject, object) in &served.graph.with_predicate(alloc, predicate)? {
            if let (Some(subject), Some(predicate), Some(object)) = (
                served.names.term(*subject),
                served.names.term(predicate),
                served.names.term(*object),
            ) {
                write!(text, "{subject} {predicate} {object} .\n")?;
            }
        }
    }
    for triple in served.shapes.iter() {
        write!(text, "shapes {triple}\n")?;
    }
    Ok(text)
}

// What is served of a version.
fn served(alloc: Global, follower: &Follower, version: u64) -> Result<String, Fail> {
    match follower.at(version) {
        Ok(served) => {
            let triples = shown(alloc, &served)?;
            let version = served.version;
            Ok(format!(in alloc; "version {version}\n{triples}")?)
        }
        Err(AtFault::Unserved { version }) => Ok(format!(in alloc; "unserved {version}\n")?),
        Err(AtFault::Memory) => Ok(String::from_str(alloc, "memory\n")?),
    }
}

// A record that is fed, and the answer wanted.
type Step = (u64, &'static str, &'static str);

// Feeds a new follower each of the records, and looks at each answer.
fn follow(rt: &impl Abort, alloc: Global, steps: &[Step]) -> Result<Follower, Fail> {
    let mut follower = Follower::new(alloc)?;
    for (number, lists, wanted) in steps {
        let next = record_of(rt, alloc, *number, lists)?;
        let fed = follower.feed(next)?;
        let found = told(alloc, &fed)?;
        assert_eq!(rt; found.as_str(), *wanted);
    }
    Ok(follower)
}

const ADD_AB: &str = "+ <e:a> <e:p> <e:b> .\n";

const ADD_AC: &str = "+ <e:a> <e:p> <e:c> .\n";

const REMOVE_AB: &str = "- <e:a> <e:p> <e:b> .\n";

// Each row: the records with their answers, a version, and what is served of it.
const ROWS: [(&[Step], u64, &str); 14] = [
    (&[], 0, "version 0\n"),
    (&[], 1, "unserved 0\n"),
    (
        &[
            (2, "", "waiting 0"),
            (2, "", "known 0"),
            (1, ADD_AB, "applied 2"),
            (1, ADD_AB, "known 2"),
        ],
        2,
        "version 2\n<e:a> <e:p> <e:b> .\n",
    ),
    (&[(2, "", "waiting 0")], 1, "unserved 0\n"),
    (
        &[
            (1, ADD_AB, "applied 1"),
            (1, ADD_AC, "differs 1"),
            (3, ADD_AC, "waiting 1"),
            (3, "", "differs 3"),
            (2, REMOVE_AB, "applied 3"),
            (3, REMOVE_AB, "differs 3"),
        ],
        3,
        "version 3\n<e:a> <e:p> <e:c> .\n",
    ),
    (
        &[
            (0, ADD_AB, "window 0"),
            (1025, ADD_AB, "window 0"),
            (1024, ADD_AB, "waiting 0"),
            (1, "", "applied 1"),
            (1026, ADD_AB, "window 1"),
            (1025, ADD_AC, "waiting 1"),
        ],
        1,
        "version 1\n",
    ),
    (
        &[
            (1, REMOVE_AB, "misfit 1 <e:a> <e:p> <e:b> ."),
            (1, ADD_AB, "applied 1"),
            (2, ADD_AB, "misfit 2 <e:a> <e:p> <e:b> ."),
            (2, REMOVE_AB, "applied 2"),
        ],
        2,
        "version 2\n",
    ),
    (
        &[
            (
                1,
                "+ <e:a> <e:p> <e:b> .\n+ <e:a> <e:p> <e:c> .\n",
                "applied 1",
            ),
            (
                2,
                "- <e:b> <e:p> <e:b> .\n+ <e:a> <e:p> <e:b> .\n+ <e:a> <e:p> <e:c> .\n",
                "misfit 2 <e:a> <e:p> <e:b> .",
            ),
            (
                2,
                "- <e:a> <e:p> <e:b> .\n+ <e:a> <e:p> <e:b> .\n",
                "misfit 2 <e:a> <e:p> <e:b> .",
            ),
        ],
        1,
        "version 1\n<e:a> <e:p> <e:b> .\n<e:a> <e:p> <e:c> .\n",
    ),
    (
        &[
            (2, ADD_AC, "waiting 0"),
            (3, ADD_AB, "waiting 0"),
            (4, REMOVE_AB, "waiting 0"),
            (1, ADD_AB, "applied 2 misfit 3"),
            (3, ADD_AB, "misfit 3 <e:a> <e:p> <e:b> ."),
            (4, REMOVE_AB, "known 2"),
            (3, REMOVE_AB, "applied 3 misfit 4"),
        ],
        2,
        "version 2\n<e:a> <e:p> <e:c> .\n<e:a> <e:p> <e:b> .\n",
    ),
    (
        &[
            (2, REMOVE_AB, "waiting 0"),
            (5, "", "waiting 0"),
            (4, "", "waiting 0"),
            (1, ADD_AB, "applied 2"),
            (7, "", "waiting 2"),
            (3, ADD_AC, "applied 5"),
        ],
        1,
        "version 1\n<e:a> <e:p> <e:b> .\n",
    ),
    (
        &[
            (1, "shapes 1\n<e:S> <e:p> <e:b> .\n", "applied 1"),
            (2, ADD_AB, "applied 2"),
            (3, "shapes 0\n", "applied 3"),
            (4, "shapes 1\n<e:T> <e:p> <e:b> .\n", "applied 4"),
        ],
        2,
        "version 2\n<e:a> <e:p> <e:b> .\nshapes <e:S> <e:p> <e:b> .\n",
    ),
    (
        &[
            (1, "shapes 1\n<e:S> <e:p> <e:b> .\n", "applied 1"),
            (2, "shapes 0\n", "applied 2"),
        ],
        2,
        "version 2\n",
    ),
    (
        &[
            (1, "", "applied 1"),
            (1, "shapes 0\n", "differs 1"),
            (2, "shapes 0\n", "applied 2"),
            (2, "", "differs 2"),
            (2, "shapes 1\n<e:S> <e:p> <e:b> .\n", "differs 2"),
            (2, "shapes 0\n", "known 2"),
        ],
        2,
        "version 2\n",
    ),
    (
        &[
            (
                1,
                "+ <e:a> <http://www.w3.org/1999/02/22-rdf-syntax-ns#type> <e:C> .\n",
                "applied 1",
            ),
            (
                2,
                "- <e:a> <http://www.w3.org/1999/02/22-rdf-syntax-ns#type> <e:C> .\n+ _:s1x1 <e:p> \"x\"@en .\n",
                "applied 2",
            ),
        ],
        2,
        "version 2\n_:s1x1 <e:p> \"x\"@en .\n",
    ),
];

#[test]
fn records_in_any_order(rt: HostRuntime) -> Result<(), Fail> {
    let alloc = rt.alloc();
    for (steps, version, wanted) in ROWS {
        let follower = follow(&rt, alloc, steps)?;
        let found = served(alloc, &follower, version)?;
        assert_eq!(rt; found.as_str(), wanted);
    }
    Ok(())
}

// What was served stays as it is, whatever is fed later.
#[test]
fn served_versions_stay(rt: HostRuntime) -> Result<(), Fail> {
    let alloc = rt.alloc();
    let mut follower = follow(&rt, alloc, &[(1, ADD_AB, "applied 1")])?;
    let Ok(first) = follower.at(1) else {
        panic!(rt; "version 1")
    };
    let fed = follower.feed(record_of(&rt, alloc, 2, REMOVE_AB)?)?;
    let answer = told(alloc, &fed)?;
    assert_eq!(rt; answer.as_str(), "applied 2");
    let found = shown(alloc, &first)?;
    assert_eq!(rt; found.as_str(), "<e:a> <e:p> <e:b> .\n");
    assert!(rt; first.graph.len() == 1);
    Ok(())
}

// A long run, fed backwards in stretches: each version is served, and shares its pages with the others.
#[test]
fn a_long_run(rt: HostRuntime) -> Result<(), Fail> {
    let alloc = rt.alloc();
    let mut follower = Follower::new(alloc)?;
    for stretch in 0..20_u64 {
        for back in 0..500_u64 {
            let number = stretch * 500 + 500 - back;
            let lists = format!(in alloc; "+ <e:a> <e:p> <e:{number}> .\n")?;
            let fed = follower.feed(record_of(&rt, alloc, number, &lists)?)?;
            if back < 499 {
                assert!(rt; matches!(&fed, Fed::Waiting { version: _ }));
            }
        }
        assert!(rt; follower.version() == stretch * 500 + 500);
    }
    for version in [0, 1, 2, 499, 500, 5000, 9999, 10_000] {
        let Ok(served) = follower.at(version) else {
            panic!(rt; "a version that is there")
        };
        assert!(rt; served.graph.len() as u64 == version);
    }
    assert!(rt; follower.at(10_001).is_err());
    Ok(())
}
