//! A session's check of its changes, with no turn.
ghost use Rattle.std.specs.Prelude.{MatchResult};
ghost use Rattle.guard_store.specs.Fronts.{SharedStore};
ghost use Rattle.guard_store.specs.Callers.{IsOfStore, IsSession};
ghost use Rattle.guard_store.specs.Answers.{CheckCounts, ChecksHead, ChecksNot};

use crate::faults::CheckFault;
use crate::session::Session;
use disk::Disk;
use shape_eval::Steps;
use std::sync::ledger::Ledger;
use std::thread::Threads;

impl<D: Disk> Session<D> {
    /// Checks the changes of the open transaction at the version of its last head, beside the turns of others, and keeps the
    /// verdict for its commit, until a change is staged. Answers whether one is kept: none is where shapes are staged. NoHead
    /// comes where no transaction is open, or no head was taken since its begin and its last staged change. The evaluations
    /// are counted in `steps`: one for each pair of a shape and a node that the changes touch and that is a target after them;
    /// threads share them out among each other. After a fault the session is as it was.
    pub fn check<L: Ledger, T: Threads + Sync>(
        &mut self,
        rt: &T,
        steps: &mut Steps<L>,
    ) -> Result<bool, CheckFault>
        requires { IsOfStore self.old }
        ensures checks { MatchResult result (λ kept. ChecksHead kept self.old self.new) (λ fault. ChecksNot fault self.old self.new) }
        ensures session { (store : SharedStore) → IsSession store self.old → IsSession store self.new }
        ensures steps { CheckCounts self.old steps.old steps.new result }
    {
        let Some(open) = self.current.take() else {
            return Err(CheckFault::NoHead);
        };
        let mut open = open;
        let Some(head) = &self.head else {
            self.current = Some(open);
            return Err(CheckFault::NoHead);
        };
        let checked = open.check(rt, head, steps);
        self.current = Some(open);
        match checked {
            Ok(kept) => Ok(kept),
            Err(_) => Err(CheckFault::Memory),
        }
    }
}
