//! Why a log was not made or opened.
use rdf_model::Term;
use std::alloc::AllocError;

/// Why no log was made.
#[derive(Clone, Copy, Debug, PartialEq, Eq)]
pub enum CreateLogFault {
    /// The disk had a fault.
    ReadFault,
    /// The disk has bytes.
    NotEmpty,
    /// Memory ran out.
    Memory,
}

/// Why no log was opened, or no store restored from its records.
#[derive(Debug, Drop, PartialEq, Eq)]
pub enum LogFault {
    /// The disk had a fault.
    ReadFault,
    /// This record is to blame, from 1: it isn't whole, isn't spelled as records are or has another number; or it staged the last
    /// shapes graph, which breaks a rule; or it doesn't fit the graph before it; or the graph that it leads to has a result, and it
    /// is the last. For 0 it is the header, or the first gate.
    BadLog { record: u64 },
    /// A blank node has a number over 4,278,190,078.
    Spent,
    /// The pattern of this shape of the last shapes graph was refused.
    Pattern { node: Term },
    /// The terms of the records, or the triples of the last graph, are more than the limit.
    TooLarge,
    /// Memory ran out.
    Memory,
}

impl From<AllocError> for LogFault {
    ghost use Rattle.std.specs.Prelude.{◌≡◌};
    ghost use Rattle.log_command.specs.declared.fault.LogFault.TheVariants as faults;

    ghost from_gives = { λ _ fault. fault ≡ faults.Memory };

    fn from(_error: AllocError) -> LogFault {
        LogFault::Memory
    }
}
