//! The results that a session sees of its begin, with no turn.
ghost use Rattle.std.specs.Prelude.{MatchResult};
ghost use Rattle.guard_store.specs.Answers.{Reports, ReportsNot};

use crate::faults::ReportFault;
use crate::session::Session;
use disk::Disk;
use session_model::Report;

impl<D: Disk> Session<D> {
    /// The report of the graph at the begin of the open transaction by the shapes graph there: the results of validating it (SHACL
    /// section 3.6), each once, in the order of results. Its own changes are left out. It takes no turn, and nothing is evaluated.
    pub fn report(&self) -> Result<Report, ReportFault>
        ensures { MatchResult result (Reports self.now) (λ fault. ReportsNot fault self.now) }
    {
        let Some(open) = &self.current else {
            return Err(ReportFault::NoTransaction);
        };
        match open.report() {
            Ok(report) => Ok(report),
            Err(_) => Err(ReportFault::Memory),
        }
    }
}
