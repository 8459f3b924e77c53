// Which results keep a commit from being accepted.
ghost use Rattle.std.specs.Prelude.{◌≤◌};

use commit_core::{BlockMode, Limits};
use outside::RegexMaker;
use session_player::{run_all, text_of};
use session_reader::prepare;
use std::alloc::Global;
use std::test::Fail;
use std::thread::Threads;

const ALL: Limits = Limits {
    terms: 1000,
    triples: 1000,
    mode: BlockMode::All,
};

const VIOLATION: Limits = Limits {
    terms: 1000,
    triples: 1000,
    mode: BlockMode::Violation,
};

// What the session prints.
fn printed<T: Threads + Sync>(
    rt: &T,
    alloc: Global,
    limits: Limits,
    file: &str,
) -> Result<String, Fail>
    requires { limits.terms ≤ 2000000 }
{
    if file.len() > 50000 {
        return Err(Fail::new("the file is short"));
    }
    let mut maker = RegexMaker::new(alloc);
    let Ok(commands) = prepare(alloc, &mut maker, 1, 1, file.as_bytes()) else {
        return Err(Fail::new("the file is read"));
    };
    let run = run_all(rt, alloc, limits, vec![in alloc; commands]?)?;
    Ok(text_of(alloc, &run)?)
}

// Whether a graph is accepted that has one result, of a shape that declares this.
fn is_accepted<T: Threads + Sync>(
    rt: &T,
    alloc: Global,
    limits: Limits,
    declared: &str,
) -> Result<bool, Fail>
    requires { limits.terms ≤ 2000000 }
{
    let mut file = String::from_str(
        alloc,
        "begin\nshapes turtle\n@prefix sh: <http://www.w3.org/ns/shacl#> .\n",
    )?;
    write!(
        file,
        "<e:S> sh:targetNode <e:a> ; sh:property <e:P> .\n<e:P> sh:path <e:p> ; sh:minCount 1{declared} .\n%%\ncommit\n"
    )?;
    let text = printed(rt, alloc, limits, &file)?;
    if text.ends_with("commit 1\nhistory 1 1 1 1 1\n") {
        return Ok(true);
    }
    if text.ends_with("end\nhistory 1 1 1 1 1\n") {
        return Ok(false);
    }
    Err(Fail::new("the commit is accepted or refused"))
}

#[test]
fn results_block_by_the_severity_of_their_shape(rt: HostRuntime) -> Result<(), Fail> {
    let alloc = rt.alloc();
    assert!(rt; is_accepted(&rt, alloc, VIOLATION, " ; sh:severity sh:Warning")?);
    assert!(rt; is_accepted(&rt, alloc, VIOLATION, " ; sh:severity sh:Info")?);
    assert!(rt; !is_accepted(&rt, alloc, VIOLATION, "")?);
    assert!(rt; !is_accepted(&rt, alloc, VIOLATION, " ; sh:severity sh:Violation")?);
    assert!(rt; !is_accepted(&rt, alloc, VIOLATION, " ; sh:severity <e:Warning>")?);
    assert!(rt; !is_accepted(&rt, alloc, VIOLATION, " ; sh:severity sh:warning")?);
    Ok(())
}

#[test]
fn all_results_block_without_the_option(rt: HostRuntime) -> Result<(), Fail> {
    let alloc = rt.alloc();
    assert!(rt; !is_accepted(&rt, alloc, ALL, " ; sh:severity sh:Warning")?);
    assert!(rt; !is_accepted(&rt, alloc, ALL, " ; sh:severity sh:Info")?);
    assert!(rt; !is_accepted(&rt, alloc, ALL, "")?);
    Ok(())
}

const STANDING: &str = "begin\nshapes turtle\n@prefix sh: <http://www.w3.org/ns/shacl#> .\n\
    <e:S> sh:targetNode <e:a> ; sh:property <e:P> .\n\
    <e:P> sh:path <e:p> ; sh:minCount 1 ; sh:severity sh:Warning .\n\
    <e:T> sh:targetSubjectsOf <e:q> ; sh:property <e:Q> .\n\
    <e:Q> sh:path <e:q> ; sh:maxCount 0 .\n%%\ncommit\n\
    begin\nadd ntriples\n<e:b> <e:q> <e:c> .\n%%\ncommit\n";

#[test]
fn a_refusal_has_the_results_that_stand(rt: HostRuntime) -> Result<(), Fail> {
    let text = printed(&rt, rt.alloc(), VIOLATION, STANDING)?;
    let begin = "session 1\nbegin 0\nshapes 9\ncommit 1\nbegin 1\nadd 1\nrefused 2\n";
    assert!(rt; text.starts_with(begin));
    let warning = "_:r1 sh:focusNode <e:a> .\n_:r1 sh:resultPath <e:p> .\n\
        _:r1 sh:resultSeverity <http://www.w3.org/ns/shacl#Warning> .\n";
    let violation = "_:r2 sh:focusNode <e:b> .\n_:r2 sh:resultPath <e:q> .\n\
        _:r2 sh:resultSeverity <http://www.w3.org/ns/shacl#Violation> .\n";
    assert!(rt; text.contains(warning));
    assert!(rt; text.contains(violation));
    Ok(())
}
