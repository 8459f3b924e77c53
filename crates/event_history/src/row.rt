//! Kept events in a row, the newest first.
ghost use Rattle.std.specs.Prelude.{◌≡◌, [], ◌∷◌, ◌++◌, ◌<◌, length, map, reverse, IfOk, IfSome, MatchOption};
ghost use Rattle.std.specs.List.{AllByRecursion};
ghost use Rattle.std.specs.Vec.{vec_capacity};
ghost use Rattle.event_history.specs.Kept.{HasTerms, events_with, meaning, session_of};

use crate::kept::{KeptEvent, Meaning, NamedBlock};
use collections::{Sequence, let_go};
use std::alloc::{AllocError, Global};
use std::boxed::Box;
use std::marker::Model;
use std::mem;
use store_model::{Event, NameKind};
use term_dict::Dict;

/// Kept events. They take one more without memory, once there is room for it.
#[cycle(kept)]
pub struct KeptEvents {
    pub(crate) newest: Link,
}

#[cycle(kept)]
pub(crate) enum Link {
    End,
    After(Box<Row>),
}

/// An event, and those before it.
#[cycle(kept)]
pub(crate) struct Row {
    pub(crate) event: KeptEvent,
    pub(crate) older: KeptEvents,
}

// Written by hand, so that what owns one calls it in place of having it written out.
impl Drop for Row {
    fn drop(self) {
        let Row { event: _, older: _ } = self;
    }
}

impl Row {
    // Room for an event: one that counts for nothing.
    pub(crate) fn room(alloc: Global) -> Row {
        let block = NamedBlock {
            session: 0,
            kind: NameKind::Fresh,
            numbers: Sequence::new(alloc),
        };
        Row {
            event: KeptEvent::Block(block),
            older: KeptEvents::new(),
        }
    }

    // The event, and those before it.
    fn into_parts(self) -> (KeptEvent, KeptEvents)
        ensures { result ≡ (self.event, self.older) }
    {
        let Row { event, older } = self;
        (event, older)
    }
}

impl Model for KeptEvents {
    ghost use Rattle.std.specs.Prelude.{List, length};
    ghost use Rattle.event_history.specs.declared.kept.KeptEvent.{KeptEvent};

    ghost Value = { List KeptEvent };

    ghost use Rattle.event_history.specs.Rows.{kept_events};

    ghost view = { λ k. kept_events k.newest };

    ghost size = { length };

    ghost use Rattle.std.proofs.Common.{arith, length-append};

    ghost size_decreases = { λ a k. Prim.grind (arith, length-append) };
}

impl KeptEvents {
    pub(crate) fn new() -> KeptEvents
        ensures { result ≡ [] }
    {
        KeptEvents { newest: Link::End }
    }

    // Adds an event in the room that was made for it.
    pub(crate) fn push(&mut self, room: Box<Row>, event: KeptEvent)
        ensures { self.new ≡ self.old ++ event ∷ [] }
    {
        let mut room = room;
        let older = mem::replace(self, KeptEvents { newest: Link::End });
        *room = Row { event, older };
        *self = KeptEvents {
            newest: Link::After(room),
        };
    }

    // The newest event and those before it.
    fn split_newest(self) -> Option<(KeptEvent, KeptEvents)>
        ensures { MatchOption result (self ≡ []) (λ pair. self ≡ pair.1 ++ pair.0 ∷ []) }
    {
        let KeptEvents { newest } = self;
        match newest {
            Link::End => None,
            Link::After(row) => Some(Box::into_inner(row).into_parts()),
        }
    }

    // All but the newest event.
    fn before(self) -> Option<KeptEvents>
        ensures { IfSome result (λ older. length older < length self) }
    {
        let KeptEvents { newest } = self;
        match newest {
            Link::End => None,
            Link::After(row) => {
                let (event, older) = Box::into_inner(row).into_parts();
                let_go(event);
                Some(older)
            }
        }
    }
}

// They can be many, so that they are let go event by event.
impl Drop for KeptEvents {
    fn drop(self) {
        let mut rest = Some(self);
        while let Some(kept) = rest {
            rest = kept.before();
        }
    }
}

/// The sessions of the events, the newest first.
pub(crate) fn sessions_back(alloc: Global, kept: &KeptEvents) -> Result<Vec<u32>, AllocError>
    ensures { IfOk result (λ v. v.items ≡ reverse (map session_of kept.now)) }
{
    let mut sessions = Vec::new(alloc);
    let mut at = kept;
    while let Link::After(row) = &at.newest {
        sessions.push(row.event.session())?;
        at = &row.older;
    }
    Ok(sessions)
}

/// What each event's numbers stand for, the newest first.
pub(crate) fn meanings_back(
    alloc: Global,
    names: &Dict,
    kept: &KeptEvents,
) -> Result<Vec<Meaning>, AllocError>
    requires { AllByRecursion (HasTerms names.now.terms) kept.now }
    ensures { IfOk result (λ v. v.items ≡ reverse (map (meaning names.now.terms) kept.now)) }
{
    let mut read = Vec::new(alloc);
    let mut at = kept;
    while let Link::After(row) = &at.newest {
        read.push(row.event.meaning(alloc, names)?)?;
        at = &row.older;
    }
    Ok(read)
}

/// What each event's numbers stand for, in order, and room for all events.
pub(crate) fn room_for(
    alloc: Global,
    names: &Dict,
    kept: &KeptEvents,
) -> Result<(Vec<Meaning>, Vec<Event>), AllocError>
    requires { AllByRecursion (HasTerms names.now.terms) kept.now }
    ensures read { IfOk result (λ made. made.0.items ≡ map (meaning names.now.terms) kept.now) }
    ensures empty { IfOk result (λ made. made.1.items ≡ []) }
    ensures room { IfOk result (λ made. vec_capacity made.1 ≡ length kept.now) }
{
    let mut read = meanings_back(alloc, names, kept)?;
    read.reverse();
    let room = Vec::with_capacity(alloc, read.len())?;
    Ok((read, room))
}

/// The events, the newest first, of what their numbers stand for in order, in the room that was made for them. It takes no memory.
pub(crate) fn events_back(kept: KeptEvents, read: Vec<Meaning>, room: Vec<Event>) -> Vec<Event>
    requires read { length read.items ≡ length kept }
    requires empty { room.items ≡ [] }
    requires room { vec_capacity room ≡ length kept }
    ensures { result.items ≡ events_with (reverse kept) (reverse read.items) }
{
    let mut read = read;
    let mut events = room;
    let mut rest = kept.split_newest();
    while let Some((event, older)) = rest {
        match read.pop() {
            Some(meaning) => events.push_reserved(event.with_meaning(meaning)),
            None => unreachable!(),
        }
        rest = older.split_newest();
    }
    events
}
