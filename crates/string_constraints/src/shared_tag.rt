//! The component unique-lang (SHACL section 4.4.5).
ghost use Rattle.std.specs.Prelude.{◌≡◌, ◌↔◌, IfOk, IsTrue, OnOk, Some};
ghost use Rattle.std.specs.List.{Contains};
ghost use Rattle.shape_model.specs.Vocabulary as defined_words;
ghost use Rattle.shape_model.specs.declared.component.Component.TheVariants as components;
ghost use Rattle.component_rows.specs.Listed.{Lists, untold};
ghost use Rattle.component_rows.specs.Sites.{ListsAt, at_values, site_row};
ghost use Rattle.string_constraints.specs.Languages.{Adds, AreShared, Notes, found_for, tag_of};

use crate::language::tag;
use collections::sorted_once;
use component_rows::{Site, row_alone};
use rdf_model::{Names, Term};
use rdf_text::Text;
use shape_model::{Component, ResultRow, is_true};
use std::alloc::{AllocError, Global};
use std::collections::BTreeSet;
use vocabulary::XSD_STRING;

// Whether the tag is among those kept.
fn is_kept(tags: &BTreeSet<Text>, tag: &Text) -> bool
    ensures { IsTrue result ↔ Contains tags.now.keys tag.now }
{
    tags.contains(tag)
}

// Keeps the tag, once.
fn keep(tags: &mut BTreeSet<Text>, tag: &Text) -> Result<(), AllocError>
    ensures { OnOk result (Adds tags.old.keys tag.now tags.new.keys) }
{
    let _ = tags.insert(tag.clone()?)?;
    Ok(())
}

// Notes a tag as seen, or as shared where it was seen before.
fn note(
    seen: &mut BTreeSet<Text>,
    shared: &mut BTreeSet<Text>,
    tag: &Text,
) -> Result<(), AllocError>
    ensures { OnOk result (Notes (Some tag.now) seen.old.keys shared.old.keys seen.new.keys shared.new.keys) }
{
    if is_kept(seen, tag) {
        keep(shared, tag)?;
    } else {
        keep(seen, tag)?;
    }
    Ok(())
}

// Notes the tag of a term that has one.
fn note_term(
    seen: &mut BTreeSet<Text>,
    shared: &mut BTreeSet<Text>,
    term: &Term,
) -> Result<(), AllocError>
    ensures { OnOk result (Notes (tag_of term.now) seen.old.keys shared.old.keys seen.new.keys shared.new.keys) }
{
    match tag(term) {
        Some(tag) => note(seen, shared, tag),
        None => Ok(()),
    }
}

// The tags that two of the value nodes have.
fn shared_tags<N: Names>(site: &Site<'_, N>) -> Result<BTreeSet<Text>, AllocError>
    ensures { IfOk result (λ tags. AreShared site.now.terms site.now.values tags.keys) }
{
    site.recall();
    let (alloc, values) = (site.alloc(), site.values());
    let mut seen = BTreeSet::new(alloc);
    let mut shared = BTreeSet::new(alloc);
    for value in values {
        note_term(&mut seen, &mut shared, site.named(*value))?;
    }
    Ok(shared)
}

// The tag as a literal of xsd:string.
#[tactic(auto, unfolding(shape_model::specs::Vocabulary::string_literal))]
fn tag_literal(alloc: Global, tag: Text) -> Result<Term, AllocError>
    ensures { IfOk result (λ term. term ≡ defined_words.string_literal tag) }
{
    Ok(Term::Literal {
        lexical: tag,
        datatype: Text::new(alloc, XSD_STRING)?,
        language: None,
    })
}

// The result of a tag that value nodes share.
fn row_for<N: Names>(site: &Site<'_, N>, tag: Text) -> Result<ResultRow, AllocError>
    ensures { IfOk result (λ row. row ≡ site_row components.UniqueLang site.now (found_for tag)) }
{
    let mut row = row_alone(site, Component::UniqueLang)?;
    row.other = Some(tag_literal(site.alloc(), tag)?);
    Ok(row)
}

// One result for each of the tags.
fn rows_for<N: Names>(
    site: &Site<'_, N>,
    tags: BTreeSet<Text>,
) -> Result<Vec<ResultRow>, AllocError>
    ensures { IfOk result (λ rows. Lists (λ r. (t : _) × Contains tags.keys t × (r ≡ site_row components.UniqueLang site.now (found_for t))) rows.items) }
{
    let mut rest = tags;
    let mut rows = Vec::new(site.alloc());
    while let Some(tag) = rest.pop_first() {
        rows.push(row_for(site, tag)?)?;
    }
    Ok(sorted_once(rows)?)
}

/// The results of sh:uniqueLang (SHACL section 4.4.5): where its value is `true`, one for each language tag that two
/// value nodes have.
pub fn unique_lang<N: Names>(site: &Site<'_, N>) -> Result<Vec<ResultRow>, AllocError>
    ensures { IfOk result (λ rows. ListsAt components.UniqueLang (at_values site.now) untold site.now rows.items) }
{
    if !is_true(site.parameter_term()) {
        return Ok(Vec::new(site.alloc()));
    }
    let tags = shared_tags(site)?;
    rows_for(site, tags)
}
