//! An event as it is kept.
ghost use Rattle.std.specs.Prelude.{◌≡◌, ◌<◌, IfOk, length};
ghost use Rattle.std.specs.List.{AllByRecursion};
ghost use Rattle.triple_index.specs.Changes.{IsNumberedChange};
ghost use Rattle.event_history.specs.Named.{accepted_commit, named_block, net_at, terms_at};
ghost use Rattle.event_history.specs.Replies.{same_reply};

use crate::replies::is_same_reply;
use collections::Sequence;
use numbered_lists::Net;
use numbered_patterns::{read_change, read_term};
use rdf_model::Term;
use std::alloc::{AllocError, Global};
use store_model::{Action, Event, NameKind, Reply, Transaction};
use term_dict::Dict;
use triple_index::NumberedChange;

/// A block of terms that were named, by the numbers that they have then.
pub struct NamedBlock {
    pub session: u32,
    pub kind: NameKind,
    pub numbers: Sequence<u32>,
}

// Written by hand, so that what owns one calls it in place of having it written out.
impl Drop for NamedBlock {
    fn drop(self) {
        let NamedBlock {
            session: _,
            kind: _,
            numbers: _,
        } = self;
    }
}

impl NamedBlock {
    // The event, with the terms of the numbers.
    fn with_terms(self, terms: Sequence<Term>) -> Event
        ensures { result ≡ named_block self.session self.kind terms }
    {
        let NamedBlock {
            session,
            kind,
            numbers: _,
        } = self;
        Event {
            session,
            action: Action::Name(kind, terms),
            reply: Reply::Named,
        }
    }
}

/// A commit that was accepted, with its changes by the numbers that their terms have then. Those of its transaction count for nothing.
pub struct AcceptedCommit {
    pub session: u32,
    pub transaction: Transaction,
    pub net: Sequence<NumberedChange>,
    pub reply: Reply,
}

// Written by hand, so that what owns one calls it in place of having it written out.
impl Drop for AcceptedCommit {
    fn drop(self) {
        let AcceptedCommit {
            session: _,
            transaction: _,
            net: _,
            reply: _,
        } = self;
    }
}

impl AcceptedCommit {
    // The event, with the changes of the numbers.
    fn with_net(self, net: Net) -> Event
        ensures { result ≡ accepted_commit self net }
    {
        let AcceptedCommit {
            session,
            transaction,
            net: _,
            reply,
        } = self;
        let mut transaction = transaction;
        transaction.net = net;
        Event {
            session,
            action: Action::Commit(transaction),
            reply,
        }
    }
}

/// What the numbers of an event stand for: the terms of a block, or the changes of a commit.
pub(crate) struct Meaning {
    pub(crate) terms: Sequence<Term>,
    pub(crate) net: Net,
}

// Written by hand, so that what owns one calls it in place of having it written out.
impl Drop for Meaning {
    fn drop(self) {
        let Meaning { terms: _, net: _ } = self;
    }
}

impl Meaning {
    // The terms, and the changes.
    fn into_parts(self) -> (Sequence<Term>, Net)
        ensures { result ≡ (self.terms, self.net) }
    {
        let Meaning { terms, net } = self;
        (terms, net)
    }
}

// The terms of these numbers.
fn terms_of(alloc: Global, names: &Dict, numbers: &[u32]) -> Result<Sequence<Term>, AllocError>
    requires { AllByRecursion (λ n. n < length names.now.terms) numbers.now }
    ensures { IfOk result (λ terms. terms ≡ terms_at names.now.terms numbers.now) }
{
    let mut terms = Vec::with_capacity(alloc, numbers.len())?;
    for number in numbers {
        terms.push(read_term(names, *number)?)?;
    }
    Ok(Sequence::from_vec(terms))
}

// The changes of these numbers.
fn net_of(alloc: Global, names: &Dict, net: &[NumberedChange]) -> Result<Net, AllocError>
    requires { AllByRecursion (IsNumberedChange names.now.terms) net.now }
    ensures { IfOk result (λ read. read ≡ net_at names.now.terms net.now) }
{
    let mut read = Net::new(alloc);
    for change in net {
        read.push(alloc, read_change(names, change)?)?;
    }
    Ok(read)
}

/// An event as it is kept.
pub(crate) enum KeptEvent {
    Whole(Event),
    /// The event of a block that was named.
    Block(NamedBlock),
    /// The event of a commit that was accepted.
    Accepted(AcceptedCommit),
}

// Written by hand, so that what owns one calls it in place of having it written out.
impl Drop for KeptEvent {
    fn drop(self) {
        match self {
            KeptEvent::Whole(_) => {}
            KeptEvent::Block(_) => {}
            KeptEvent::Accepted(_) => {}
        }
    }
}

impl KeptEvent {
    ghost use Rattle.event_history.specs.Kept.{HasTerms, event_with, meaning, reply_of, session_of};

    pub(crate) fn session(&self) -> u32
        ensures { result ≡ session_of self.now }
    {
        match self {
            KeptEvent::Whole(event) => event.session,
            KeptEvent::Block(block) => block.session,
            KeptEvent::Accepted(commit) => commit.session,
        }
    }

    // Whether its reply is this one.
    pub(crate) fn has_reply(&self, reply: &Reply) -> bool
        ensures { result ≡ same_reply (reply_of self.now) reply.now }
    {
        match self {
            KeptEvent::Whole(event) => is_same_reply(&event.reply, reply),
            KeptEvent::Block(_) => is_same_reply(&Reply::Named, reply),
            KeptEvent::Accepted(commit) => is_same_reply(&commit.reply, reply),
        }
    }

    // What its numbers stand for. What is kept whole has none.
    pub(crate) fn meaning(&self, alloc: Global, names: &Dict) -> Result<Meaning, AllocError>
        requires { HasTerms names.now.terms self.now }
        ensures { IfOk result (λ read. read ≡ meaning names.now.terms self.now) }
    {
        let mut read = Meaning {
            terms: Sequence::new(alloc),
            net: Net::new(alloc),
        };
        match self {
            KeptEvent::Whole(_) => {}
            KeptEvent::Block(block) => {
                read.terms = terms_of(alloc, names, block.numbers.as_slice())?;
            }
            KeptEvent::Accepted(commit) => {
                read.net = net_of(alloc, names, commit.net.as_slice())?;
            }
        }
        Ok(read)
    }

    // The event, with what its numbers stand for.
    pub(crate) fn with_meaning(self, read: Meaning) -> Event
        ensures { result ≡ event_with self read }
    {
        let (terms, net) = read.into_parts();
        match self {
            KeptEvent::Whole(event) => event,
            KeptEvent::Block(block) => block.with_terms(terms),
            KeptEvent::Accepted(commit) => commit.with_net(net),
        }
    }
}
