//! What a session selects by itself, with no turn.
ghost use Rattle.std.specs.Prelude.{◌≡◌, Some, MatchResult, map};
ghost use Rattle.bgp_query.specs.Selected.{AreSelected};
ghost use Rattle.bgp_query.specs.TermBindings.{opened};
ghost use Rattle.session_transaction.specs.Transactions.{graph_so_far, with_finds};
ghost use Rattle.guard_store.specs.Answers.{IsOpen, SelectsNot};

use crate::faults::SelectFault;
use crate::session::Session;
use bgp_query::{JoinFault, JoinPattern};
use collections::Sequence;
use disk::Disk;
use rdf_model::Term;
use std::alloc::Global;

impl<D: Disk> Session<D> {
    /// The bindings of the patterns in the graph at the begin of the open transaction with its changes so far: the terms of
    /// the variables, from the first on, under which each pattern stands there (SPARQL 1.1 Query, section 18.3), each once,
    /// ascending. Each pattern, its variables open, is recorded as a find's is, also where there are too many bindings. It
    /// takes no turn. Without an open transaction, and without memory, the session is as it was.
    pub fn select(
        &mut self,
        alloc: Global,
        patterns: &[JoinPattern<Term>],
    ) -> Result<Vec<Sequence<Term>>, SelectFault>
        ensures { MatchResult result
            (λ rows. (w : _) × IsOpen self.old w × AreSelected (graph_so_far w) patterns.now rows.items × (self.new ≡ record self.old { current = Some (with_finds w (map opened patterns.now)) }))
            (λ fault. SelectsNot fault patterns.now self.old self.new) }
    {
        let Some(open) = self.current.take() else {
            return Err(SelectFault::NoTransaction);
        };
        let mut open = open;
        let selected = open.select(alloc, patterns);
        self.current = Some(open);
        match selected {
            Ok(rows) => Ok(rows),
            Err(JoinFault::TooMany) => Err(SelectFault::TooMany),
            Err(JoinFault::Memory) => Err(SelectFault::Memory),
        }
    }
}
