//! The text that explains a validation, for each row.
ghost use Rattle.std.specs.Prelude.{◌≡◌, ◌+◌, ◌*◌, ◌<◌, ◌≤◌, ◌^◌, IfOk, length};
ghost use Rattle.rdf_model.specs.Numbers.{AreNumbered, IsNumbering};
ghost use Rattle.path_eval.specs.Instances.{AreClassWords};
ghost use Rattle.parallel_validate.specs.Named.{AreNamedTriples};

use crate::rows;
use collections::Sequence;
use graph_explanation::{NumberedData, explanation_over};
use outside::RegexMaker;
use parallel_validate::number_triple;
use path_eval::ClassWords;
use plain_validation::{class_words, names_of, shapes_of};
use rdf_model::{Ids, ListGraph, ListNames, Triple};
use shape_eval::Steps;
use shapes_graph::ShapesGraph;
use std::alloc::{AllocError, Global};
use std::marker::Brand;
use std::process::Abort;
use std::sync::ledger::{Blank, Ledger};
use std::test::Fail;
use turtle_reader::read;

// The triples by numbers.
fn ids_of(alloc: Global, names: &ListNames, graph: &[Triple]) -> Result<Sequence<Ids>, AllocError>
    requires { AreNamedTriples names.now graph.now }
    ensures { IfOk result (AreNumbered names.now) }
{
    let mut ids = Sequence::new(alloc);
    for triple in graph {
        ids.push(number_triple(names, triple))?;
    }
    Ok(ids)
}

fn explained_in<L: Ledger>(
    alloc: Global,
    names: &ListNames,
    words: ClassWords,
    graph: &[Triple],
    shapes: &ShapesGraph,
    blank: Blank,
) -> Result<String, AllocError>
    requires numbering { IsNumbering names.now }
    requires words { AreClassWords names.now words }
    requires graph { AreNamedTriples names.now graph.now }
    requires shapes { AreNamedTriples names.now shapes.now }
    requires name { blank.name ≡ L.name }
    requires parts { blank.parts ≡ L.parts }
    requires some { 0 < L.parts }
{
    let mut steps = Steps::<L>::begin(blank);
    let graph = ListGraph::from_triples(ids_of(alloc, names, graph)?);
    let data = NumberedData::new(alloc, &graph, names, words);
    explanation_over(&data, shapes, &mut steps)
}

fn explained(alloc: Global, graph: &[Triple], shapes: &ShapesGraph) -> Result<String, AllocError>
    requires { 3 * (length graph.now + length shapes.now) + 2 < 2 ^ 32 }
{
    let names = names_of(alloc, graph, shapes.triples())?;
    let names = ListNames::from_terms(Sequence::from_vec(names));
    let words = class_words(alloc, &names)?;
    explained_in::<Brand>(alloc, &names, words, graph, shapes, Blank::new(1))
}

fn assert_explained(
    rt: &impl Abort,
    alloc: Global,
    shapes: &str,
    graph: &str,
    wanted: &str,
) -> Result<(), Fail> {
    assert!(rt; shapes.len() < 20000);
    assert!(rt; graph.len() < 20000);
    let (mut first, mut second) = (1, 1);
    let Ok(triples) = read(alloc, 1, &mut first, graph.as_bytes()) else {
        assert!(rt; false, "{graph}");
        return Ok(());
    };
    let Ok(shapes_triples) = read(alloc, 2, &mut second, shapes.as_bytes()) else {
        assert!(rt; false, "{shapes}");
        return Ok(());
    };
    let mut maker = RegexMaker::new(alloc);
    let Ok(shapes) = shapes_of(alloc, &mut maker, shapes_triples) else {
        assert!(rt; false, "{shapes}");
        return Ok(());
    };
    assert!(rt; triples.len() < 20000);
    assert!(rt; shapes.triples().len() < 20000);
    let text = explained(alloc, triples.as_slice(), &shapes)?;
    assert_eq!(rt; text.as_str(), wanted);
    Ok(())
}

#[test]
fn too_few_values(rt: HostRuntime) -> Result<(), Fail> {
    assert_explained(&rt, rt.alloc(), rows::MIN_COUNT, "", rows::NO_VALUE)?;
    assert_explained(
        &rt,
        rt.alloc(),
        rows::MIN_COUNT,
        "<e:a> <e:p> <e:b> .\n",
        "",
    )?;
    Ok(())
}

#[test]
fn along_an_inverse_path(rt: HostRuntime) -> Result<(), Fail> {
    assert_explained(
        &rt,
        rt.alloc(),
        rows::INVERSE,
        rows::TWO_SUBJECTS,
        rows::BOTH_SUBJECTS,
    )?;
    Ok(())
}

#[test]
fn targets_of_a_class(rt: HostRuntime) -> Result<(), Fail> {
    assert_explained(
        &rt,
        rt.alloc(),
        rows::CLASS,
        rows::SUBCLASS,
        rows::OF_SUBCLASS,
    )?;
    Ok(())
}

#[test]
fn closed_shapes(rt: HostRuntime) -> Result<(), Fail> {
    assert_explained(
        &rt,
        rt.alloc(),
        rows::CLOSED,
        rows::ANOTHER_PREDICATE,
        rows::NOT_ALLOWED,
    )?;
    Ok(())
}

#[test]
fn the_least_shape_and_target(rt: HostRuntime) -> Result<(), Fail> {
    assert_explained(
        &rt,
        rt.alloc(),
        rows::SHARED,
        rows::SHARED_VALUE,
        rows::OF_THE_LEAST,
    )?;
    Ok(())
}
