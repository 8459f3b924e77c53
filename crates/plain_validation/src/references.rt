// The shapes that a shape refers to (SHACL sections 4.6 and 4.7).
ghost use Rattle.std.specs.Prelude.{IfOk, map};
ghost use Rattle.std.specs.List.{Contains};
ghost use Rattle.rdf_model.specs.declared.term.Term.{Term as TermData};
ghost use Rattle.shape_model.specs.Readings.{Refers, reading};
ghost use Rattle.shape_model.specs.Triples.{IsMember};
ghost use Rattle.shape_model.specs.Vocabulary.{sh};
ghost use Rattle.plain_terms.specs.Finds.{Finds};
ghost use Rattle.plain_validation.specs.References.{NamedReference};

use plain_components::siblings;
use plain_terms::{members_of_each, parameters};
use rdf_model::{Term, Triple};
use std::alloc::{AllocError, Global};

// The properties whose values are shapes, or lists of shapes.
const NAMES: [&str; 7] = [
    "not",
    "node",
    "property",
    "and",
    "or",
    "xone",
    "qualifiedValueShape",
];

// The values of the property, and the members of those that are lists.
fn named_references(
    alloc: Global,
    shapes: &[Triple],
    shape: &Term,
    name: &str,
) -> Result<Vec<Term>, AllocError>
    ensures { IfOk result (λ found. Finds (NamedReference shapes.now shape.now (sh name.now)) found.items) }
{
    let values = parameters(alloc, shapes, shape, name)?;
    let mut members = members_of_each(alloc, shapes, values.as_slice())?;
    let mut found = values.into_vec();
    found.append(&mut members)?;
    Ok(found)
}

// The values of some properties of the shape, and the members of lists among them.
fn all_named(
    alloc: Global,
    shapes: &[Triple],
    shape: &Term,
    names: &[&str],
) -> Result<Vec<Term>, AllocError>
    ensures { IfOk result (λ found. Finds (λ m. (p : TermData) × IsMember (map (λ name. sh name.now) names.now) p × NamedReference shapes.now shape.now p m) found.items) }
{
    let mut found = Vec::new(alloc);
    for name in names {
        let mut more = named_references(alloc, shapes, shape, name)?;
        found.append(&mut more)?;
    }
    Ok(found)
}

/// All shapes that the shape refers to, and maybe other terms.
pub(crate) fn referred_shapes(
    alloc: Global,
    shapes: &[Triple],
    shape: &Term,
) -> Result<Vec<Term>, AllocError>
    ensures { IfOk result (λ found. (m : TermData) → Refers (reading shapes.now shape.now) m → Contains found.items m) }
{
    let mut found = all_named(alloc, shapes, shape, &NAMES)?;
    let mut beside = siblings(alloc, shapes, shape)?.into_vec();
    found.append(&mut beside)?;
    Ok(found)
}
