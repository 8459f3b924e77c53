//! What a session does by itself, with no turn.
ghost use Rattle.std.specs.Prelude.{◌≡◌, None, Some, MatchBool, MatchResult};
ghost use Rattle.session_model.specs.Sessions.{found_by};
ghost use Rattle.session_transaction.specs.Transactions;
ghost use Rattle.session_transaction.specs.Transactions.{plain};
ghost use Rattle.guard_store.specs.Answers.{FindsNot, IsOpen};

use crate::faults::FindFault;
use crate::session::Session;
use collections::let_go;
use disk::Disk;
use rdf_model::{Pattern, Triple};
use std::alloc::Global;

impl<D: Disk> Session<D> {
    /// The triples that the pattern asks for in the graph at the begin of the open transaction with its changes so far,
    /// in their order. The pattern is recorded. After a fault the session is as it was.
    pub fn find(&mut self, alloc: Global, pattern: &Pattern) -> Result<Vec<Triple>, FindFault>
        ensures { MatchResult result
            (λ v. (w : _) × IsOpen self.old w × (v.items ≡ found_by (plain w) pattern.now) × (self.new ≡ record self.old { current = Some (Transactions.with_find w pattern.now) }))
            (λ fault. FindsNot fault self.old self.new) }
    {
        let Some(open) = self.current.take() else {
            return Err(FindFault::NoTransaction);
        };
        let mut open = open;
        let found = open.find(alloc, pattern);
        self.current = Some(open);
        match found {
            Ok(triples) => Ok(triples),
            Err(_) => Err(FindFault::Memory),
        }
    }

    /// Drops the open transaction. False comes where none is open.
    pub fn abort(&mut self) -> bool
        ensures { MatchBool result
            (((w : _) × IsOpen self.old w) × (self.new ≡ record self.old { current = None; head = None }))
            ((self.old.current ≡ None) × (self.new ≡ self.old)) }
    {
        let Some(open) = self.current.take() else {
            return false;
        };
        let_go(open);
        self.head = None;
        true
    }
}
