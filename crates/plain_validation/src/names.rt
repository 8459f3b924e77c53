//! The terms of two graphs, named.
ghost use Rattle.std.specs.Prelude.{◌≡◌, ◌+◌, ◌*◌, ◌<◌, ◌≤◌, IfOk, OnOk, length};
ghost use Rattle.rdf_model.specs.Numbers.{IsNumbering, term_at};
ghost use Rattle.shape_model.specs.Vocabulary.{rdf_type, sub_class_of};
ghost use Rattle.path_ast.specs.PathReadings.{IsNamed};
ghost use Rattle.path_eval.specs.Instances.{AreClassWords};
ghost use Rattle.parallel_validate.specs.Named.{AreNamedTriples};
ghost use Rattle.plain_validation.specs.Names.{class_names, with_terms};

use collections::insert_item;
use path_eval::ClassWords;
use rdf_model::{ListNames, Names, Term, Text, Triple};
use std::alloc::{AllocError, Global};
use vocabulary::{RDF_TYPE, RDFS_SUB_CLASS_OF};

#[tactic(auto, unfolding(shape_model::specs::Vocabulary::rdf, shape_model::specs::Vocabulary::rdf_type))]
fn type_term(alloc: Global) -> Result<Term, AllocError>
    ensures { IfOk result (λ term. term ≡ rdf_type) }
{
    Ok(Term::Iri(Text::new(alloc, RDF_TYPE)?))
}

#[tactic(auto, unfolding(shape_model::specs::Vocabulary::sub_class_of))]
fn super_term(alloc: Global) -> Result<Term, AllocError>
    ensures { IfOk result (λ term. term ≡ sub_class_of) }
{
    Ok(Term::Iri(Text::new(alloc, RDFS_SUB_CLASS_OF)?))
}

// The names of the words by which nodes are instances of classes.
fn first_names(alloc: Global) -> Result<Vec<Term>, AllocError>
    ensures { IfOk result (λ names. names.items ≡ class_names) }
{
    let mut names = Vec::new(alloc);
    insert_item(&mut names, type_term(alloc)?)?;
    insert_item(&mut names, super_term(alloc)?)?;
    Ok(names)
}

// Puts the terms of the triples into their places among the names.
fn add_terms(names: &mut Vec<Term>, triples: &[Triple]) -> Result<(), AllocError>
    ensures { OnOk result (names.new.items ≡ with_terms names.old.items triples.now) }
{
    for triple in triples {
        insert_item(names, triple.subject.clone()?)?;
        insert_item(names, triple.predicate.clone()?)?;
        insert_item(names, triple.object.clone()?)?;
    }
    Ok(())
}

/// rdf:type, rdfs:subClassOf and the terms of both graphs, each once, in their order.
pub fn names_of(alloc: Global, graph: &[Triple], shapes: &[Triple]) -> Result<Vec<Term>, AllocError>
    ensures numbering { IfOk result (λ names. IsNumbering names.items) }
    ensures words { IfOk result (λ names. IsNamed names.items rdf_type × IsNamed names.items sub_class_of) }
    ensures graph { IfOk result (λ names. AreNamedTriples names.items graph.now) }
    ensures shapes { IfOk result (λ names. AreNamedTriples names.items shapes.now) }
    ensures few { IfOk result (λ names. length names.items ≤ 3 * (length graph.now + length shapes.now) + 2) }
{
    let mut names = first_names(alloc)?;
    add_terms(&mut names, graph)?;
    add_terms(&mut names, shapes)?;
    Ok(names)
}

// The number of a name.
fn number_of(names: &ListNames, term: &Term) -> u32
    requires { IsNamed names.now term.now }
    ensures bound { result < length names.now }
    ensures term { term_at names.now result ≡ term.now }
{
    names.id(term).unwrap()
}

/// The numbers of the words by which nodes are instances of classes.
pub fn class_words(alloc: Global, names: &ListNames) -> Result<ClassWords, AllocError>
    requires { IsNamed names.now rdf_type × IsNamed names.now sub_class_of }
    ensures { IfOk result (AreClassWords names.now) }
{
    let types = type_term(alloc)?;
    let above = super_term(alloc)?;
    Ok(ClassWords {
        rdf_type: number_of(names, &types),
        sub_class_of: number_of(names, &above),
    })
}
