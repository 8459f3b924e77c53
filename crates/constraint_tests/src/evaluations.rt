//! Tests of the evaluation of a whole shape.
ghost use Rattle.std.specs.Prelude.{◌≡◌, ◌<◌, ◌↔◌, IfOk, IsTrue, length};
ghost use Rattle.std.specs.List.{All, Contains};
ghost use Rattle.rdf_model.specs.Numbers.{AreNumbered, IsNumbering, term_at};
ghost use Rattle.rdf_model.specs.declared.term.Term.TheVariants as data_terms;
ghost use Rattle.path_ast.specs.PathReadings.{IsNamed};
ghost use Rattle.path_eval.specs.Instances.{AreClassWords};
ghost use Rattle.shape_model.specs.Vocabulary.{rdf_type, sub_class_of};
ghost use Rattle.shape_ast.specs.Readings.{AreBound, AreNamed, HoldsOfConstraint, HoldsOfShape};
ghost use Rattle.shape_ast.specs.Standing.{AreBuilt, IsBuilt};

use crate::case::{Case, assert_same, read_case};
use crate::short_terms::{term, text_of};
use collections::Sequence;
use path_eval::ClassWords;
use rdf_model::{Footprint, ListGraph, ListNames, Names, Term};
use shape_ast::{Bound, Constraint, Shape, Shapes, TermComponent, bind};
use shape_eval::{Evaluation, Matchers, Steps, eval, permit};
use shape_model::ResultRow;
use std::alloc::{AllocError, Global};
use std::marker::Brand;
use std::process::Abort;
use std::sync::ledger::{Blank, Ledger};

// The last part has the values of sh:class at the node shape e:S. The focus node e:f has the other terms as values of rdf:type.
// Wanted are those of which it is no instance, in the order of the results.
const CLASSES: &str = "\
Class; http://www.w3.org/1999/02/22-rdf-syntax-ns#type; http://www.w3.org/2000/01/rdf-schema#subClassOf e:S e:C e:D; ; e:C e:D; e:C e:D
Class; http://www.w3.org/1999/02/22-rdf-syntax-ns#type; http://www.w3.org/2000/01/rdf-schema#subClassOf e:S e:D e:C; ; e:C e:D; e:D e:C
Class; http://www.w3.org/1999/02/22-rdf-syntax-ns#type; http://www.w3.org/2000/01/rdf-schema#subClassOf e:S e:C e:D; e:C; e:D; e:C e:D
Class; http://www.w3.org/1999/02/22-rdf-syntax-ns#type; http://www.w3.org/2000/01/rdf-schema#subClassOf e:S e:C e:D; e:D e:C; ; e:C e:D
Class; http://www.w3.org/1999/02/22-rdf-syntax-ns#type; http://www.w3.org/2000/01/rdf-schema#subClassOf e:S e:C; ; e:C; e:C e:C
Class; http://www.w3.org/1999/02/22-rdf-syntax-ns#type; http://www.w3.org/2000/01/rdf-schema#subClassOf e:S e:C; ; ;";

// Whether the term is the IRI.
fn is_iri(term: &Term, iri: &str) -> bool
    ensures { IsTrue result ↔ (term.now ≡ data_terms.Iri iri.now) }
{
    match term {
        Term::Iri(text) => text.as_str() == iri,
        _ => false,
    }
}

#[tactic(auto, unfolding(shape_model::specs::Vocabulary::rdf, shape_model::specs::Vocabulary::rdf_type))]
fn is_type(term: &Term) -> bool
    ensures { IsTrue result → term.now ≡ rdf_type }
{
    is_iri(term, "http://www.w3.org/1999/02/22-rdf-syntax-ns#type")
}

#[tactic(auto, unfolding(shape_model::specs::Vocabulary::sub_class_of))]
fn is_above(term: &Term) -> bool
    ensures { IsTrue result → term.now ≡ sub_class_of }
{
    is_iri(term, "http://www.w3.org/2000/01/rdf-schema#subClassOf")
}

fn is_type_word(names: &ListNames, number: u32) -> bool
    ensures bound { IsTrue result → number < length names.now }
    ensures word { IsTrue result → term_at names.now number ≡ rdf_type }
{
    match names.term(number) {
        Some(term) => is_type(term),
        None => false,
    }
}

fn is_above_word(names: &ListNames, number: u32) -> bool
    ensures bound { IsTrue result → number < length names.now }
    ensures word { IsTrue result → term_at names.now number ≡ sub_class_of }
{
    match names.term(number) {
        Some(term) => is_above(term),
        None => false,
    }
}

// Whether they are the words by which nodes are instances.
fn are_words(names: &ListNames, words: ClassWords) -> bool
    ensures { IsTrue result → AreClassWords names.now words }
{
    is_type_word(names, words.rdf_type) && is_above_word(names, words.sub_class_of)
}

// Whether the term has a name.
fn is_named(names: &ListNames, term: &Term) -> bool
    ensures { IsTrue result → Contains names.now term.now }
{
    match names.id(term) {
        Some(_) => true,
        None => false,
    }
}

// Whether the constraint is one of a named term.
fn is_of_named(names: &ListNames, constraint: &Constraint<Term>) -> bool
    ensures { IsTrue result → HoldsOfConstraint (IsNamed names.now) 1 constraint.now }
{
    match constraint {
        Constraint::ByTerm { parameter, .. } => is_named(names, parameter),
        _ => false,
    }
}

fn are_of_named(names: &ListNames, constraints: &[Constraint<Term>]) -> bool
    ensures { IsTrue result → All (HoldsOfConstraint (IsNamed names.now) 1) constraints.now }
{
    for constraint in constraints {
        if !is_of_named(names, constraint) {
            return false;
        }
    }
    true
}

// The node shape with the constraints, alone.
fn node_shape(
    alloc: Global,
    node: Term,
    constraints: Sequence<Constraint<Term>>,
) -> Result<Shapes, AllocError>
    ensures named { IfOk result (λ all. (terms : _) → Contains terms node → All (HoldsOfConstraint (IsNamed terms) 1) constraints → AreNamed terms all.shapes) }
    ensures built { IfOk result (λ all. AreBuilt (λ t. t) all.shapes) }
{
    let mut shapes = Sequence::new(alloc);
    shapes.push(Shape {
        node,
        path: None,
        is_deactivated: false,
        severity: None,
        messages: Sequence::new(alloc),
        targets: Sequence::new(alloc),
        constraints,
        pattern: None,
        flags: None,
        properties: Sequence::new(alloc),
        qualified: None,
        siblings: Sequence::new(alloc),
        ignored: Sequence::new(alloc),
    })?;
    Ok(Shapes { shapes })
}

fn constraints_of(alloc: Global, line: &str) -> Result<Sequence<Constraint<Term>>, AllocError> {
    let mut constraints = Sequence::new(alloc);
    let words = line.split(';').nth(5).unwrap_or("");
    for word in words.split_ascii_whitespace() {
        constraints.push(Constraint::ByTerm {
            component: TermComponent::Class,
            parameter: term(alloc, word)?,
        })?;
    }
    Ok(constraints)
}

// The results of the first shape at a node, in an own ledger of evaluations.
fn results<L: Ledger>(
    alloc: Global,
    graph: &ListGraph,
    names: &ListNames,
    words: ClassWords,
    bound: &Bound,
    focus: u32,
    blank: Blank,
) -> Result<Vec<ResultRow>, AllocError>
    requires numbering { IsNumbering names.now }
    requires graph { AreNumbered names.now graph.now }
    requires words { AreClassWords names.now words }
    requires bound { AreBound names.now bound.now.shapes }
    requires built { AreBuilt (term_at names.now) bound.now.shapes }
    requires shape { 0 < length bound.now.shapes }
    requires focus { focus < length names.now }
    requires name { blank.name ≡ L.name }
    requires parts { blank.parts ≡ L.parts }
    requires some { 0 < L.parts }
{
    let mut steps = Steps::<L>::begin(blank);
    let mut footprint = Footprint::new(alloc);
    let allowed = permit(&mut steps);
    let evaluation = Evaluation::new(alloc, graph, names, words, bound);
    let mut matchers = Matchers::new(alloc);
    eval(
        &evaluation,
        0,
        focus,
        &mut footprint,
        &mut matchers,
        allowed,
    )
}

// The parameters of the results as they stand, with blanks between them.
fn classes(alloc: Global, rows: &[ResultRow]) -> Result<String, AllocError> {
    let mut all = String::new(alloc);
    for row in rows {
        if let Some(parameter) = &row.parameter {
            write!(all, "{} ", text_of(alloc, parameter)?)?;
        }
    }
    Ok(all)
}

// The words by which nodes are instances.
fn class_words(
    rt: &impl Abort,
    alloc: Global,
    names: &ListNames,
    rdf_type: u32,
) -> Result<ClassWords, AllocError>
    ensures { IfOk result (λ words. AreClassWords names.now words) }
{
    let above = term(alloc, "http://www.w3.org/2000/01/rdf-schema#subClassOf")?;
    let words = ClassWords {
        rdf_type,
        sub_class_of: names.id(&above).unwrap_or(0),
    };
    assert!(rt; are_words(names, words));
    Ok(words)
}

// The node shape of the row.
fn shapes_of(
    rt: &impl Abort,
    alloc: Global,
    names: &ListNames,
    line: &str,
) -> Result<Shapes, AllocError>
    ensures named { IfOk result (λ all. AreNamed names.now all.shapes) }
    ensures built { IfOk result (λ all. AreBuilt (λ t. t) all.shapes) }
{
    let node = term(alloc, "e:S")?;
    let constraints = constraints_of(alloc, line)?;
    assert!(rt; is_named(names, &node));
    assert!(rt; are_of_named(names, constraints.as_slice()));
    Ok(node_shape(alloc, node, constraints)?)
}

// The row's node shape by the numbers of its terms.
fn bound_of(
    rt: &impl Abort,
    alloc: Global,
    names: &ListNames,
    line: &str,
) -> Result<Bound, AllocError>
    ensures bound { IfOk result (λ bound. AreBound names.now bound.shapes) }
    ensures built { IfOk result (λ bound. AreBuilt (term_at names.now) bound.shapes) }
    ensures some { IfOk result (λ bound. 0 < length bound.shapes) }
{
    let shapes = shapes_of(rt, alloc, names, line)?;
    let bound = bind(alloc, &shapes, names)?;
    assert_eq!(rt; bound.shapes.len(), 1);
    Ok(bound)
}

fn row_results(
    alloc: Global,
    case: &Case<'_>,
    words: ClassWords,
    bound: &Bound,
) -> Result<Vec<ResultRow>, AllocError>
    requires words { AreClassWords case.now.names words }
    requires bound { AreBound case.now.names bound.now.shapes }
    requires built { AreBuilt (term_at case.now.names) bound.now.shapes }
    requires shape { 0 < length bound.now.shapes }
{
    results::<Brand>(
        alloc,
        case.graph(),
        case.names(),
        words,
        bound,
        case.focus(),
        Blank::new(1),
    )
}

// The results have the classes that the row wants.
fn assert_rows(
    rt: &impl Abort,
    alloc: Global,
    wanted: &str,
    rows: &[ResultRow],
    line: &str,
) -> Result<(), AllocError> {
    let found = classes(alloc, rows)?;
    assert_same(rt, line, found.trim(), wanted);
    Ok(())
}

fn assert_classes(rt: &impl Abort, alloc: Global, line: &str) -> Result<(), AllocError> {
    let case = read_case(rt, alloc, "", line)?;
    let words = class_words(rt, alloc, case.names(), case.parameter())?;
    let bound = bound_of(rt, alloc, case.names(), line)?;
    let rows = row_results(alloc, &case, words, &bound)?;
    assert_rows(rt, alloc, case.wanted(), &rows, line)
}

#[test]
fn classes_of_one_shape(rt: HostRuntime) -> Result<(), AllocError> {
    for line in CLASSES.lines() {
        assert_classes(&rt, rt.alloc(), line)?;
    }
    Ok(())
}
