//! The bindings of patterns in the graph of an open transaction.
ghost use Rattle.std.specs.Prelude.{◌≡◌, ◌++◌, IfOk, MatchBool, MatchResult, map};
ghost use Rattle.bgp_query.specs.Selected.{AreSelected};
ghost use Rattle.bgp_query.specs.TermBindings;
ghost use Rattle.bgp_query.specs.TermBindings.{part_opened};
ghost use Rattle.session_transaction.specs.Transactions.{SelectsNot, graph_so_far, with_finds};

use crate::transaction::OpenTransaction;
use bgp_query::{JoinFault, JoinPattern, Part};
use collections::Sequence;
use rdf_model::{Pattern, Term};
use std::alloc::{AllocError, Global};
use std::mem;

// What a part asks for, whatever its variable stands for.
fn opened_part(part: &Part<Term>) -> Result<Option<Term>, AllocError>
    ensures { IfOk result (λ asked. asked ≡ part_opened part.now) }
{
    match part {
        Part::Variable(_) => Ok(None),
        Part::Constant(term) => Ok(Some(term.clone()?)),
    }
}

// A pattern with its variables open.
fn opened(pattern: &JoinPattern<Term>) -> Result<Pattern, AllocError>
    ensures { IfOk result (λ asked. asked ≡ TermBindings.opened pattern.now) }
{
    Ok(Pattern {
        subject: opened_part(&pattern.subject)?,
        predicate: opened_part(&pattern.predicate)?,
        object: opened_part(&pattern.object)?,
    })
}

fn all_opened(alloc: Global, patterns: &[JoinPattern<Term>]) -> Result<Vec<Pattern>, AllocError>
    ensures { IfOk result (λ v. v.items ≡ map TermBindings.opened patterns.now) }
{
    let mut asked = Vec::with_capacity(alloc, patterns.len())?;
    for pattern in patterns {
        asked.push(opened(pattern)?)?;
    }
    Ok(asked)
}

// Puts items at the end, or answers false where there is no room for them.
fn appended<T: Drop>(list: Sequence<T>, more: Vec<T>) -> (Sequence<T>, bool)
    ensures { MatchBool result.1 (result.0 ≡ list ++ more.items) (result.0 ≡ list) }
{
    let mut items = list.into_vec();
    if items.is_empty() {
        return (Sequence::from_vec(more), true);
    }
    let mut more = more;
    let grew = items.append(&mut more).is_ok();
    (Sequence::from_vec(items), grew)
}

impl OpenTransaction {
    // Records the patterns of finds, or answers false where there is no room for them.
    fn record_finds(&mut self, alloc: Global, asked: Vec<Pattern>) -> bool
        ensures { MatchBool result (self.new ≡ with_finds self.old asked.items) (self.new ≡ self.old) }
    {
        let finds = mem::replace(&mut self.transaction.finds, Sequence::new(alloc));
        let (finds, grew) = appended(finds, asked);
        self.transaction.finds = finds;
        grew
    }

    /// The bindings of the patterns in its graph with its changes: the terms of the variables, from the first on, under which
    /// each pattern stands there (SPARQL 1.1 Query, section 18.3), each once, ascending. Each pattern, its variables open,
    /// is recorded as a find's is, also where there are too many bindings; without memory it is as it was.
    pub fn select(
        &mut self,
        alloc: Global,
        patterns: &[JoinPattern<Term>],
    ) -> Result<Vec<Sequence<Term>>, JoinFault>
        ensures { MatchResult result
            (λ rows. AreSelected (graph_so_far self.old) patterns.now rows.items × (self.new ≡ with_finds self.old (map TermBindings.opened patterns.now)))
            (λ fault. SelectsNot fault patterns.now self.old self.new) }
    {
        let asked = all_opened(alloc, patterns)?;
        let selected = self.snap.select(&self.transaction.net, patterns);
        match selected {
            Err(JoinFault::Memory) => Err(JoinFault::Memory),
            answer => {
                if self.record_finds(alloc, asked) {
                    answer
                } else {
                    Err(JoinFault::Memory)
                }
            }
        }
    }
}
