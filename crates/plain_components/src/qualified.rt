// Qualified value shapes (SHACL section 4.7.3).
ghost use Rattle.std.specs.Prelude.{◌≡◌, ◌↔◌, IfOk, IsTrue};
ghost use Rattle.rdf_model.specs.declared.term.Term.{Term as TermData};
ghost use Rattle.shape_model.specs.Readings.{Sibling};
ghost use Rattle.shape_model.specs.ShapeSyntax.{HasProperty};
ghost use Rattle.shape_model.specs.Vocabulary as defined_words;
ghost use Rattle.plain_components.specs.Rows.{QualifiedAt, QualifiedRow};
ghost use Rattle.plain_components.specs.Siblings.{HasSiblings, IsCousin};
ghost use Rattle.plain_components.specs.Siblings.{IsWrong};
ghost use Rattle.plain_terms.specs.Finds.{Finds, WithSome};

use collections::Sequence;
use plain_terms::{TermTest, chosen, in_order, is_among, owners, parameters, parameters_of_each};
use plain_values::{
    Demand, Outside, PlainSite, ToldRow, conforms, is_fewer, is_more, is_unmet, row_if,
};
use rdf_model::{Term, Text, Triple};
use shape_model::{Component, ResultRow};
use std::alloc::{AllocError, Global};
use vocabulary::XSD_BOOLEAN;

/// `true` (XSD 1.1 Part 2, section 3.3.2.2).
#[tactic(auto, unfolding(shape_model::specs::Vocabulary::true_literal))]
pub(crate) fn true_term(alloc: Global) -> Result<Term, AllocError>
    ensures { IfOk result (λ term. term ≡ defined_words.true_literal) }
{
    Ok(Term::Literal {
        lexical: Text::new(alloc, "true")?,
        datatype: Text::new(alloc, XSD_BOOLEAN)?,
        language: None,
    })
}

// Whether it is a property shape.
fn has_path(alloc: Global, shapes: &[Triple], shape: &Term) -> Result<bool, AllocError>
    ensures { IfOk result (λ has. IsTrue has ↔ ((n : TermData) × HasProperty shapes.now shape.now defined_words.ShPath n)) }
{
    let paths = parameters(alloc, shapes, shape, "path")?;
    Ok(!paths.is_empty())
}

// Whether its qualified value shapes are disjoint.
fn is_disjoint(alloc: Global, shapes: &[Triple], shape: &Term) -> Result<bool, AllocError>
    ensures { IfOk result (λ is. IsTrue is ↔ HasProperty shapes.now shape.now defined_words.ShQualifiedValueShapesDisjoint defined_words.true_literal) }
{
    let yes = true_term(alloc)?;
    let found = parameters(alloc, shapes, shape, "qualifiedValueShapesDisjoint")?;
    Ok(is_among(found.as_slice(), &yes))
}

// Whether the shape may have sibling shapes: it is a property shape, and its qualified value shapes are disjoint.
fn has_siblings(alloc: Global, shapes: &[Triple], shape: &Term) -> Result<bool, AllocError>
    ensures { IfOk result (λ has. IsTrue has ↔ HasSiblings shapes.now shape.now) }
{
    let path = has_path(alloc, shapes, shape)?;
    let disjoint = is_disjoint(alloc, shapes, shape)?;
    Ok(path && disjoint)
}

// The qualified value shapes at the property shapes of the shapes of which this is a property shape, but for its own.
fn cousins(alloc: Global, shapes: &[Triple], shape: &Term) -> Result<Sequence<Term>, AllocError>
    ensures { IfOk result (λ found. Finds (IsCousin shapes.now shape.now) found) }
{
    let parents = owners(alloc, shapes, "property", shape)?;
    let others = parameters_of_each(alloc, shapes, parents.as_slice(), "property")?;
    let all = parameters_of_each(alloc, shapes, others.as_slice(), "qualifiedValueShape")?;
    let own = parameters(alloc, shapes, shape, "qualifiedValueShape")?;
    let found = chosen(alloc, all.as_slice(), &Outside { terms: &own })?;
    Ok(found)
}

/// The sibling shapes of a shape.
pub fn siblings(
    alloc: Global,
    shapes: &[Triple],
    shape: &Term,
) -> Result<Sequence<Term>, AllocError>
    ensures { IfOk result (λ found. Finds (Sibling shapes.now shape.now) found) }
{
    if has_siblings(alloc, shapes, shape)? {
        let found = cousins(alloc, shapes, shape)?;
        return Ok(found);
    }
    Ok(Sequence::new(alloc))
}

// A node that conforms to the qualified value shape, and to no sibling shape.
#[derive(Drop)]
struct Qualified<'a> {
    told: &'a [ToldRow],
    shape: &'a Term,
    siblings: &'a [Term],
}

impl TermTest for Qualified<'_> {
    ghost use Rattle.plain_components.specs.Siblings.{MeetsQualified};

    ghost accepts = { λ t v. MeetsQualified t.told.now t.shape.now t.siblings.now v };

    fn passes(&self, term: &Term) -> bool {
        let own = conforms(self.told, self.shape, term);
        let others = is_unmet(Demand::Any, self.told, self.siblings, term);
        own && others
    }
}

// Whether so many are too few or too many, by the component.
fn is_wrong(component: Component, number: usize, count: &Term) -> bool
    ensures { IsTrue result ↔ IsWrong component count.now number }
{
    match component {
        Component::QualifiedMinCount => is_fewer(number, count),
        Component::QualifiedMaxCount => is_more(number, count),
        _ => false,
    }
}

// The result for one qualified value shape.
fn qualified_rows_of(
    alloc: Global,
    at: &PlainSite<'_>,
    component: Component,
    parameter: &Term,
    shape: &Term,
    siblings: &[Term],
) -> Result<Vec<ResultRow>, AllocError>
    requires { Finds (Sibling at.now.shapes.now at.now.shape.now) siblings.now }
    ensures { IfOk result (λ rows. Finds (QualifiedRow at.now component parameter.now (IsWrong component parameter.now) shape.now) rows.items) }
{
    let test = Qualified {
        told: at.told,
        shape,
        siblings,
    };
    let found = chosen(alloc, at.values, &test)?;
    let nodes = in_order(found)?;
    let wrong = is_wrong(component, nodes.len(), parameter);
    let rows = row_if(alloc, at, component, parameter, wrong)?;
    Ok(rows)
}

// Those for each of the qualified value shapes.
fn qualified_rows_of_each(
    alloc: Global,
    at: &PlainSite<'_>,
    component: Component,
    parameter: &Term,
    shapes: &[Term],
    siblings: &[Term],
) -> Result<Vec<ResultRow>, AllocError>
    requires { Finds (Sibling at.now.shapes.now at.now.shape.now) siblings.now }
    ensures { IfOk result (λ rows. Finds (WithSome shapes.now (QualifiedRow at.now component parameter.now (IsWrong component parameter.now))) rows.items) }
{
    let mut rows = Vec::new(alloc);
    for shape in shapes {
        let mut more = qualified_rows_of(alloc, at, component, parameter, shape, siblings)?;
        rows.append(&mut more)?;
    }
    Ok(rows)
}

/// The results of sh:qualifiedMinCount and sh:qualifiedMaxCount.
pub(crate) fn qualified_rows(
    alloc: Global,
    at: &PlainSite<'_>,
    component: Component,
    parameter: &Term,
) -> Result<Vec<ResultRow>, AllocError>
    ensures { IfOk result (λ rows. Finds (QualifiedAt at.now component parameter.now (IsWrong component parameter.now)) rows.items) }
{
    let beside = siblings(alloc, at.shapes, at.shape)?;
    let shapes = parameters(alloc, at.shapes, at.shape, "qualifiedValueShape")?;
    let rows = qualified_rows_of_each(
        alloc,
        at,
        component,
        parameter,
        shapes.as_slice(),
        beside.as_slice(),
    )?;
    Ok(rows)
}
