//! Limits, actions, replies and events.
ghost use Rattle.std.specs.Prelude.{◌≡◌, MatchResult};
ghost use Rattle.store_model.specs.Actions.{IsNoCommit};

use crate::{Again, Transaction};
use collections::Sequence;
use rdf_model::{Term, Triple};
use shape_model::ResultRow;

/// Which results keep a commit from being accepted, by the severity of their shape (SHACL section
/// 2.1.4).
#[derive(Clone, Copy, Debug, PartialEq, Eq)]
pub enum BlockMode {
    /// Every result.
    All,
    /// Every result but those of `sh:Warning` and of `sh:Info`.
    Violation,
}

/// How many terms a store names and how many triples its graph has, at most, and which results
/// its graph has none of.
#[derive(Clone, Copy, Debug, PartialEq, Eq)]
pub struct Limits {
    pub terms: usize,
    pub triples: usize,
    pub mode: BlockMode,
}

/// Whose blank nodes the terms of a block are.
#[derive(Clone, Copy, Debug, PartialEq, Eq)]
pub enum NameKind {
    /// Of the block itself: naming gives them out.
    Fresh,
    /// Of the store, which may have them or not.
    Known,
    /// Of the store, which has given each of them out.
    Attach,
}

/// What a session asks of the store in one step.
#[derive(Debug)]
pub enum Action {
    /// To be given out.
    Open,
    /// The newest version, for a transaction.
    Begin,
    /// Names for the terms of a block of this kind.
    Name(NameKind, Sequence<Term>),
    /// The newest version, for a commit.
    Head,
    Commit(Transaction),
    /// Nothing: a step that ran out of memory.
    Void,
}

// Written by hand, so that what owns one calls it in place of having it written out.
impl Drop for Action {
    fn drop(self) {
        match self {
            Action::Open => {}
            Action::Begin => {}
            Action::Name(_, _) => {}
            Action::Head => {}
            Action::Commit(_) => {}
            Action::Void => {}
        }
    }
}

impl Action {
    /// The transaction of a commit; any other action as it is.
    pub fn into_transaction(self) -> Result<Transaction, Action>
        ensures { MatchResult result (λ x. self ≡ Action.Commit x) (λ other. (other ≡ self) × IsNoCommit other) }
    {
        match self {
            Action::Commit(transaction) => Ok(transaction),
            other => Err(other),
        }
    }
}

/// What the store answers.
#[derive(Debug)]
pub enum Reply {
    /// The session that was given out.
    Session(u32),
    /// 64 sessions were given out before.
    SessionsFull,
    /// The newest version.
    Version(u64),
    Named,
    /// The least blank node of the terms that wasn't given out.
    Unknown(Term),
    /// So many terms would be named, more than the limit.
    Full(usize),
    /// The overtaking commit, and the first triple of it that a find asked for.
    Conflict(u64, Triple),
    /// The graph would have so many triples, more than the limit.
    FullTriples(usize),
    /// The graph would have these results, of which one blocks.
    Refused(Sequence<ResultRow>, Again),
    /// The commit's number: the version that it made.
    Done(u64, Again),
    /// The store's log failed where the commit would have been accepted; from here on the store is
    /// stopped.
    LogFault,
    /// The version of a store that is stopped.
    Stopped(u64),
    Nothing,
}

// Written by hand, so that what owns one calls it in place of having it written out.
impl Drop for Reply {
    fn drop(self) {
        match self {
            Reply::Session(_) => {}
            Reply::SessionsFull => {}
            Reply::Version(_) => {}
            Reply::Named => {}
            Reply::Unknown(_) => {}
            Reply::Full(_) => {}
            Reply::Conflict(_, _) => {}
            Reply::FullTriples(_) => {}
            Reply::Refused(_, _) => {}
            Reply::Done(_, _) => {}
            Reply::LogFault => {}
            Reply::Stopped(_) => {}
            Reply::Nothing => {}
        }
    }
}

/// One entry of a history.
#[derive(Debug)]
pub struct Event {
    pub session: u32,
    pub action: Action,
    pub reply: Reply,
}

// Written by hand, so that what owns one calls it in place of having it written out.
impl Drop for Event {
    fn drop(self) {
        let Event {
            session: _,
            action: _,
            reply: _,
        } = self;
    }
}

impl Event {
    /// The session, the action and the reply.
    pub fn into_parts(self) -> (u32, Action, Reply)
        ensures { result ≡ (self.session, self.action, self.reply) }
    {
        let Event {
            session,
            action,
            reply,
        } = self;
        (session, action, reply)
    }
}
