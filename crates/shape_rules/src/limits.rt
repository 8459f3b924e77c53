//! The rows of shapes that are past a limit of the reader: more than 256 references lead on from them in a row, or their
//! path is nested deeper than 256 (rule 41), they have too many looks (rule 40), or they are too large (rule 42).
ghost use Rattle.std.specs.Prelude.{◌≡◌, ◌↔◌, IsTrue, IfOk, OnOk};
ghost use Rattle.std.specs.List.{Contains};
ghost use Rattle.collections.specs.Listings.{IsListing};
ghost use Rattle.collections.specs.Ordered.{IsAscending};
ghost use Rattle.rdf_model.specs.Terms.{term_cmp, triple_cmp};
ghost use Rattle.shape_syntax.specs.Gathering.{HasGathered};
ghost use Rattle.shape_syntax.specs.PathDepth.{IsDeep};
ghost use Rattle.shape_rules.specs.Broken.{HasDeepPath};
ghost use Rattle.shape_sizes.specs.PathLooks.{AreDeepPaths, MayBePath};
ghost use Rattle.shape_rules.specs.Measured.{AreMeasures};
ghost use Rattle.shape_rules.specs.Steps.{HasAdded, HaveLeast, IsLimitRow, MeasureRow};
ghost use Rattle.shape_properties.specs.Syntax.{IsShape};

use crate::RuleRow;
use crate::rows::{push_found, push_whole};
use crate::surveyed::SurveyedGraph;
use collections::Sequence;
use rdf_model::{Term, Triple};
use shape_properties::ShapeProperty;
use shape_properties::values::property_values_of;
use shape_sizes::least_with_long_chain;
use shape_sizes::looks::{has_too_many_looks, looks_of_results};
use shape_sizes::path_steps::deep_paths;
use shape_sizes::sizes::{is_too_large, sizes_of};
use shape_syntax::IndexedGraph;
use std::alloc::AllocError;
use std::collections::{BTreeMap, BTreeSet};

/// What is measured of all shapes of a graph at once.
#[derive(Drop)]
struct Measures {
    /// The values that stand for paths that are nested too deep.
    deep: BTreeSet<Term>,
    /// The sizes of the shapes, as far as they are counted.
    sizes: BTreeMap<Term, u64>,
    /// The looks that the results of the shapes need, as far as they are counted.
    looks: BTreeMap<Term, u64>,
}

fn measures_of(graph: &SurveyedGraph) -> Result<Measures, AllocError>
    ensures { IfOk result (λ measures. AreMeasures graph.now measures) }
{
    let alloc = graph.alloc();
    let indexed = graph.indexed();
    let survey = graph.survey();
    let deep = deep_paths(alloc, indexed, survey.places.as_slice(), 256)?;
    let sizes = sizes_of(alloc, indexed, survey)?;
    let looks = looks_of_results(alloc, indexed, survey)?;
    Ok(Measures { deep, sizes, looks })
}

fn is_in(nodes: &BTreeSet<Term>, node: &Term) -> bool
    ensures { IsTrue result ↔ Contains nodes.now.keys node.now }
{
    nodes.contains(node)
}

// Whether the value stands for a path that is nested deeper than 256.
fn is_deep(graph: &IndexedGraph, deep: &BTreeSet<Term>, node: &Term) -> bool
    requires deep { AreDeepPaths graph.now 256 deep.now.keys }
    requires node { MayBePath graph.now node.now }
    ensures { IsTrue result ↔ IsDeep graph.now node.now 256 }
{
    is_in(deep, node)
}

fn has_deep_path(graph: &IndexedGraph, deep: &BTreeSet<Term>, node: &Term) -> bool
    requires graph { IsAscending triple_cmp graph.now }
    requires deep { AreDeepPaths graph.now 256 deep.now.keys }
    ensures { IsTrue result ↔ HasDeepPath graph.now node.now }
{
    for triple in property_values_of(graph, node, ShapeProperty::Path) {
        if is_deep(graph, deep, &triple.object) {
            return true;
        }
    }
    false
}

// Adds the rows of the node, which is a shape, by what is measured.
fn push_measure_rows(
    graph: &SurveyedGraph,
    measures: &Measures,
    node: &Term,
    rows: &mut Sequence<RuleRow>,
) -> Result<(), AllocError>
    requires measures { AreMeasures graph.now measures.now }
    requires node { IsShape graph.now node.now }
    ensures { OnOk result (HasAdded (MeasureRow graph.now node.now) rows.old rows.new) }
{
    let indexed = graph.indexed();
    let deep = has_deep_path(indexed, &measures.deep, node);
    let large = is_too_large(indexed, &measures.sizes, node);
    let many = has_too_many_looks(graph.alloc(), indexed, &measures.looks, node)?;
    push_whole(deep, node, 41, rows)?;
    push_whole(large, node, 42, rows)?;
    push_whole(many, node, 40, rows)?;
    Ok(())
}

// Adds the rows of the nodes, which are the shapes, by what is measured.
fn push_all_measure_rows(
    graph: &SurveyedGraph,
    measures: &Measures,
    nodes: &[Term],
    rows: &mut Sequence<RuleRow>,
) -> Result<(), AllocError>
    requires measures { AreMeasures graph.now measures.now }
    requires nodes { IsListing term_cmp (IsShape graph.now) nodes.now }
    ensures { OnOk result (HasGathered (MeasureRow graph.now) nodes.now rows.old rows.new) }
{
    for node in nodes {
        push_measure_rows(graph, measures, node, rows)?;
    }
    Ok(())
}

/// The rows by the rules past 39, of the shapes with too many references in a row the least alone.
pub(crate) fn limit_rows(graph: &SurveyedGraph) -> Result<Sequence<RuleRow>, AllocError>
    ensures { IfOk result (λ rows. HaveLeast (IsLimitRow graph.now) rows) }
{
    let survey = graph.survey();
    let indexed = graph.indexed();
    let measures = measures_of(graph)?;
    let found = least_with_long_chain(graph.alloc(), indexed, &survey.references)?;
    let mut rows = Sequence::new(graph.alloc());
    push_all_measure_rows(graph, &measures, survey.shapes.as_slice(), &mut rows)?;
    push_found(found, 41, &mut rows)?;
    Ok(rows)
}
