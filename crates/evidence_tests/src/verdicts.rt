//! The verdict on evidence, for each row.
use crate::{rows, wrong_rows};
use file_validation::{EvidenceVerdict, verify};
use outside::RegexMaker;
use std::alloc::Global;
use std::process::Abort;
use std::test::Fail;

fn assert_verdict(
    rt: &impl Abort,
    alloc: Global,
    shapes: &str,
    graph: &str,
    evidence: &str,
    wanted: EvidenceVerdict,
) -> Result<(), Fail> {
    assert!(rt; shapes.len() < 20000);
    assert!(rt; graph.len() < 20000);
    assert!(rt; evidence.len() < 20000);
    let mut maker = RegexMaker::new(alloc);
    match verify(
        alloc,
        &mut maker,
        graph.as_bytes(),
        shapes.as_bytes(),
        evidence.as_bytes(),
    ) {
        Ok(verdict) => assert_eq!(rt; verdict, wanted, "{evidence}"),
        Err(_) => assert!(rt; false, "{evidence}"),
    }
    Ok(())
}

#[test]
fn what_is_explained_is_verified(rt: HostRuntime) -> Result<(), Fail> {
    assert_verdict(
        &rt,
        rt.alloc(),
        rows::MIN_COUNT,
        "",
        rows::NO_VALUE,
        EvidenceVerdict::Verified { blocks: 1 },
    )?;
    assert_verdict(
        &rt,
        rt.alloc(),
        rows::INVERSE,
        rows::TWO_SUBJECTS,
        rows::BOTH_SUBJECTS,
        EvidenceVerdict::Verified { blocks: 2 },
    )?;
    assert_verdict(
        &rt,
        rt.alloc(),
        rows::CLASS,
        rows::SUBCLASS,
        rows::OF_SUBCLASS,
        EvidenceVerdict::Verified { blocks: 1 },
    )?;
    assert_verdict(
        &rt,
        rt.alloc(),
        rows::CLOSED,
        rows::ANOTHER_PREDICATE,
        rows::NOT_ALLOWED,
        EvidenceVerdict::Verified { blocks: 1 },
    )?;
    assert_verdict(
        &rt,
        rt.alloc(),
        rows::SHARED,
        rows::SHARED_VALUE,
        rows::OF_THE_LEAST,
        EvidenceVerdict::Verified { blocks: 1 },
    )?;
    Ok(())
}

#[test]
fn what_more_is_verified(rt: HostRuntime) -> Result<(), Fail> {
    assert_verdict(
        &rt,
        rt.alloc(),
        rows::MIN_COUNT,
        "",
        "",
        EvidenceVerdict::Verified { blocks: 0 },
    )?;
    assert_verdict(
        &rt,
        rt.alloc(),
        rows::MIN_COUNT,
        "",
        wrong_rows::WITH_A_LOOK_MORE,
        EvidenceVerdict::Verified { blocks: 1 },
    )?;
    assert_verdict(
        &rt,
        rt.alloc(),
        rows::INVERSE,
        rows::TWO_SUBJECTS,
        wrong_rows::SECOND_RESULT_ALONE,
        EvidenceVerdict::Verified { blocks: 1 },
    )?;
    assert_verdict(
        &rt,
        rt.alloc(),
        rows::SHARED,
        rows::SHARED_VALUE,
        wrong_rows::OF_ANOTHER_SHAPE,
        EvidenceVerdict::Verified { blocks: 1 },
    )?;
    Ok(())
}

#[test]
fn looks_and_triples(rt: HostRuntime) -> Result<(), Fail> {
    assert_verdict(
        &rt,
        rt.alloc(),
        rows::MIN_COUNT,
        "",
        wrong_rows::WITHOUT_ITS_LOOK,
        EvidenceVerdict::Wrong { block: 1 },
    )?;
    assert_verdict(
        &rt,
        rt.alloc(),
        rows::MIN_COUNT,
        "",
        wrong_rows::WITH_ITS_LOOK_TWICE,
        EvidenceVerdict::Wrong { block: 1 },
    )?;
    assert_verdict(
        &rt,
        rt.alloc(),
        rows::MIN_COUNT,
        "",
        wrong_rows::WITH_A_TRIPLE_OF_NO_DATA,
        EvidenceVerdict::Wrong { block: 1 },
    )?;
    assert_verdict(
        &rt,
        rt.alloc(),
        rows::CLASS,
        rows::SUBCLASS,
        wrong_rows::LOOKS_IN_ANOTHER_ORDER,
        EvidenceVerdict::Wrong { block: 1 },
    )?;
    assert_verdict(
        &rt,
        rt.alloc(),
        rows::CLASS,
        rows::SUBCLASS,
        wrong_rows::WITHOUT_THE_LOOK_AT_A_CLASS,
        EvidenceVerdict::Wrong { block: 1 },
    )?;
    assert_verdict(
        &rt,
        rt.alloc(),
        rows::CLASS,
        rows::SUBCLASS,
        wrong_rows::WITHOUT_THE_LOOK_THAT_FINDS_NOTHING,
        EvidenceVerdict::Wrong { block: 1 },
    )?;
    assert_verdict(
        &rt,
        rt.alloc(),
        rows::CLASS,
        rows::SUBCLASS,
        wrong_rows::WITH_A_CLASS_MORE,
        EvidenceVerdict::Wrong { block: 1 },
    )?;
    Ok(())
}

#[test]
fn other_data_and_targets(rt: HostRuntime) -> Result<(), Fail> {
    assert_verdict(
        &rt,
        rt.alloc(),
        rows::MIN_COUNT,
        "<e:a> <e:p> <e:b> .\n",
        rows::NO_VALUE,
        EvidenceVerdict::Wrong { block: 1 },
    )?;
    assert_verdict(
        &rt,
        rt.alloc(),
        rows::MIN_COUNT,
        "",
        wrong_rows::AT_NO_TARGET,
        EvidenceVerdict::Wrong { block: 1 },
    )?;
    assert_verdict(
        &rt,
        rt.alloc(),
        rows::SHARED,
        rows::SHARED_VALUE,
        wrong_rows::OF_NO_SHAPE,
        EvidenceVerdict::Wrong { block: 1 },
    )?;
    Ok(())
}

#[test]
fn other_spellings(rt: HostRuntime) -> Result<(), Fail> {
    assert_verdict(
        &rt,
        rt.alloc(),
        rows::MIN_COUNT,
        "",
        wrong_rows::WITH_A_LINE_MORE,
        EvidenceVerdict::Wrong { block: 1 },
    )?;
    assert_verdict(
        &rt,
        rt.alloc(),
        rows::MIN_COUNT,
        "",
        wrong_rows::WITH_A_SPACE_MORE,
        EvidenceVerdict::Wrong { block: 1 },
    )?;
    assert_verdict(
        &rt,
        rt.alloc(),
        rows::MIN_COUNT,
        "",
        wrong_rows::WITHOUT_ITS_END,
        EvidenceVerdict::Wrong { block: 1 },
    )?;
    assert_verdict(
        &rt,
        rt.alloc(),
        rows::MIN_COUNT,
        "",
        wrong_rows::FROM_2_ON,
        EvidenceVerdict::Wrong { block: 1 },
    )?;
    Ok(())
}

#[test]
fn the_second_block(rt: HostRuntime) -> Result<(), Fail> {
    assert_verdict(
        &rt,
        rt.alloc(),
        rows::INVERSE,
        rows::TWO_SUBJECTS,
        wrong_rows::SECOND_WITHOUT_A_TRIPLE,
        EvidenceVerdict::Wrong { block: 2 },
    )?;
    assert_verdict(
        &rt,
        rt.alloc(),
        rows::INVERSE,
        rows::TWO_SUBJECTS,
        wrong_rows::SECOND_WITH_TRIPLES_TURNED,
        EvidenceVerdict::Wrong { block: 2 },
    )?;
    assert_verdict(
        &rt,
        rt.alloc(),
        rows::INVERSE,
        rows::TWO_SUBJECTS,
        wrong_rows::SECOND_OF_ANOTHER_RESULT,
        EvidenceVerdict::Wrong { block: 2 },
    )?;
    assert_verdict(
        &rt,
        rt.alloc(),
        rows::INVERSE,
        rows::TWO_SUBJECTS,
        wrong_rows::SECOND_NUMBERED_3,
        EvidenceVerdict::Wrong { block: 2 },
    )?;
    Ok(())
}
