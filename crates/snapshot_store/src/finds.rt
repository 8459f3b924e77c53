//! What the finds of a transaction ask for, by number.
ghost use Rattle.std.specs.Prelude.{◌≡◌, [], IfOk, OnOk, filter};
ghost use Rattle.rdf_model.specs.Graphs.{with_each};
ghost use Rattle.rdf_model.specs.Numbers.{AreNumbered, graph_of};
ghost use Rattle.store_model.specs.Store.{first_matching};
ghost use Rattle.snapshot_store.specs.Asking.{AskAlike, AsksBesides, is_asked};

use crate::first::first_triple;
use numbered_patterns::NumberedPattern;
use rdf_model::{Ids, Pattern, Triple};
use std::alloc::{AllocError, Global};
use std::marker::Model;
use term_dict::Dict;

// Adds the numbers of a pattern. One with a term that has no number asks for nothing.
fn add_numbered(
    names: &Dict,
    asked: &mut Vec<NumberedPattern>,
    pattern: &Pattern,
) -> Result<(), AllocError>
    ensures { OnOk result (AsksBesides names.now.terms pattern.now asked.old.items asked.new.items) }
{
    match NumberedPattern::of(names, pattern) {
        Some(numbered) => {
            asked.push(numbered)?;
            Ok(())
        }
        None => Ok(()),
    }
}

fn numbered_finds(
    alloc: Global,
    names: &Dict,
    patterns: &[Pattern],
) -> Result<Vec<NumberedPattern>, AllocError>
    ensures { IfOk result (λ asked. AskAlike names.now.terms patterns.now asked.items) }
{
    let mut asked = Vec::new(alloc);
    for pattern in patterns {
        add_numbered(names, &mut asked, pattern)?;
    }
    Ok(asked)
}

fn asks(asked: &[NumberedPattern], triple: Ids) -> bool
    ensures { result ≡ is_asked asked.now triple }
{
    asked.iter().any(|pattern| pattern.matches(triple))
}

// Those of the triples that are asked for.
fn asked_in(
    alloc: Global,
    asked: &[NumberedPattern],
    triples: &[Ids],
) -> Result<Vec<Ids>, AllocError>
    ensures { IfOk result (λ found. found.items ≡ filter (is_asked asked.now) triples.now) }
{
    let mut found = Vec::new(alloc);
    for triple in triples {
        if asks(asked, *triple) {
            found.push(*triple)?;
        }
    }
    Ok(found)
}

/// Finds, whose terms were looked up among the names of a store. Contracts see them and the names.
#[derive(Drop)]
pub(crate) struct FindSet<'a> {
    alloc: Global,
    names: &'a Dict,
    patterns: &'a [Pattern],
    asked: Vec<NumberedPattern>,
}

impl<'a> Model for FindSet<'a> {
    ghost use Rattle.snapshot_store.specs.Asking.{AskAlike};
    ghost use Rattle.snapshot_store.specs.Named.{NamedFinds};

    ghost Value = { NamedFinds };

    ghost view = { λ s. record { names = s.names.now.terms; finds = s.patterns.now } };

    ghost invariant = { λ s. AskAlike s.names.now.terms s.patterns.now s.asked.items };
}

impl<'a> FindSet<'a> {
    /// Looks up the terms of the patterns.
    pub(crate) fn new(
        alloc: Global,
        names: &'a Dict,
        patterns: &'a [Pattern],
    ) -> Result<FindSet<'a>, AllocError>
        ensures { IfOk result (λ set. set ≡ record { names = names.now.terms; finds = patterns.now }) }
    {
        let asked = numbered_finds(alloc, names, patterns)?;
        Ok(FindSet {
            alloc,
            names,
            patterns,
            asked,
        })
    }

    /// The first triple that a pattern asks for, by the terms of these triples of numbers.
    pub(crate) fn first_found(&self, changed: &[Ids]) -> Result<Option<Triple>, AllocError>
        requires { AreNumbered self.now.names changed.now }
        ensures { IfOk result (λ first. first ≡ first_matching self.now.finds (with_each [] (graph_of self.now.names changed.now))) }
    {
        let found = asked_in(self.alloc, &self.asked, changed)?;
        let first = first_triple(self.names, &found)?;
        Ok(first)
    }
}
