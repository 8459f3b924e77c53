//! The history of a store.
ghost use Rattle.std.specs.Prelude.{◌≡◌, ◌<◌, [], ◌∷◌, ◌++◌, length, map, IfOk, MatchResult};
ghost use Rattle.std.specs.List.{AllByRecursion};
ghost use Rattle.triple_index.specs.Changes.{IsNumberedChange};
ghost use Rattle.event_history.specs.Named.{IsBeginning, accepted_commit, named_block, net_at, terms_at};
ghost use Rattle.event_history.specs.Replies.{newest_replied};

use crate::kept::{AcceptedCommit, KeptEvent, NamedBlock};
use crate::row::{KeptEvents, Link, events_back, room_for, sessions_back};
use crate::slip::Slip;
use std::alloc::{AllocError, Global};
use std::marker::Model;
use store_model::{Event, Reply};
use term_dict::Dict;

/// A history of events, with the names by whose numbers it keeps the terms of named blocks and of accepted commits. It takes one
/// more event without memory, once there is room for it. Contracts see the events, the oldest first, and the names.
pub struct History {
    names: Dict,
    kept: KeptEvents,
}

impl Model for History {
    ghost use Rattle.std.specs.Prelude.{map};
    ghost use Rattle.std.specs.List.{AllByRecursion};
    ghost use Rattle.event_history.specs.Kept.{HasTerms, told};
    ghost use Rattle.event_history.specs.Named.{NamedHistory};

    ghost Value = { NamedHistory };

    ghost view = { λ h. record { events = map (told h.names.terms) h.kept; names = h.names.terms } };

    ghost invariant = { λ h. AllByRecursion (HasTerms h.names.terms) h.kept };
}

// Written by hand, so that what owns one calls it in place of having it written out.
impl Drop for History {
    fn drop(self) {
        let History { names: _, kept: _ } = self;
    }
}

impl History {
    /// A history without events, of a store with these names.
    pub fn new(names: Dict) -> History
        ensures { result ≡ record { events = []; names = names.terms } }
    {
        History {
            names,
            kept: KeptEvents::new(),
        }
    }

    /// Adds an event in the room that was made for it.
    pub fn push(&mut self, slip: Slip, event: Event)
        ensures { self.new ≡ record { events = self.old.events ++ event ∷ []; names = self.old.names } }
    {
        self.kept.push(slip.room, KeptEvent::Whole(event));
    }

    /// Adds the event of a block that was named, in the room that was made for it. The names are those of the store after it: the
    /// names before it, and maybe more.
    pub fn push_named(&mut self, slip: Slip, block: NamedBlock, names: Dict)
        requires more { IsBeginning self.old.names names.terms }
        requires named { AllByRecursion (λ n. n < length names.terms) block.numbers }
        ensures { self.new ≡ record { events = self.old.events ++ named_block block.session block.kind (terms_at names.terms block.numbers) ∷ []; names = names.terms } }
    {
        self.names = names;
        self.kept.push(slip.room, KeptEvent::Block(block));
    }

    /// Adds the event of a commit that was accepted, in the room that was made for it.
    pub fn push_accepted(&mut self, slip: Slip, commit: AcceptedCommit)
        requires { AllByRecursion (IsNumberedChange self.old.names) commit.net }
        ensures { self.new ≡ record { events = self.old.events ++ accepted_commit commit (net_at self.old.names commit.net) ∷ []; names = self.old.names } }
    {
        self.kept.push(slip.room, KeptEvent::Accepted(commit));
    }

    /// Whether the newest event has this reply.
    pub fn newest_has(&self, reply: &Reply) -> bool
        ensures { result ≡ newest_replied self.now.events reply.now }
    {
        match &self.kept.newest {
            Link::End => false,
            Link::After(row) => row.event.has_reply(reply),
        }
    }

    /// The sessions of the events, in order.
    pub fn sessions(&self, alloc: Global) -> Result<Vec<u32>, AllocError>
        ensures { IfOk result (λ v. v.items ≡ map (λ e. e.session) self.now.events) }
    {
        let mut sessions = sessions_back(alloc, &self.kept)?;
        sessions.reverse();
        Ok(sessions)
    }

    /// The events, in order. Where there is no memory for them, the history is handed back.
    pub fn into_events(self, alloc: Global) -> Result<Vec<Event>, (History, AllocError)>
        ensures { MatchResult result (λ events. events.items ≡ self.events) (λ fault. fault.0 ≡ self) }
    {
        let Ok((read, room)) = room_for(alloc, &self.names, &self.kept) else {
            return Err((self, AllocError));
        };
        let History { names: _, kept } = self;
        let mut events = events_back(kept, read, room);
        events.reverse();
        Ok(events)
    }
}
