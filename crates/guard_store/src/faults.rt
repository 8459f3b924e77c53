//! Why the calls of a store and its sessions were refused.
use rdf_model::Term;
use std::alloc::AllocError;

/// Why no session was opened.
#[derive(Clone, Copy, Debug, PartialEq, Eq)]
pub enum OpenFault {
    /// 64 sessions were given out before.
    SessionsFull,
    Memory,
}

/// Why no transaction began.
#[derive(Clone, Copy, Debug, PartialEq, Eq)]
pub enum BeginFault {
    /// A transaction is open.
    AlreadyOpen,
    Memory,
}

/// Why nothing was staged.
#[derive(Clone, Copy, Debug, PartialEq, Eq)]
pub enum StageFault {
    NoTransaction,
    /// So many terms would be named, more than the limit.
    Full { count: usize },
    Memory,
}

/// Why nothing was attached.
#[derive(Debug, Drop)]
pub enum AttachFault {
    NoTransaction,
    /// The least blank node of the block that no session was given.
    Unknown { node: Term },
    /// So many terms would be named, more than the limit.
    Full { count: usize },
    Memory,
}

/// Why the newest version wasn't taken.
#[derive(Clone, Copy, Debug, PartialEq, Eq)]
pub enum HeadFault {
    NoTransaction,
    Memory,
}

/// Why a commit has no answer.
#[derive(Clone, Copy, Debug, PartialEq, Eq)]
pub enum CommitFault {
    NoTransaction,
    Memory,
}

/// Why nothing was checked.
#[derive(Clone, Copy, Debug, PartialEq, Eq)]
pub enum CheckFault {
    /// No transaction is open, or no head was taken since its begin and its last staged change.
    NoHead,
    Memory,
}

/// Why a find has no answer.
#[derive(Clone, Copy, Debug, PartialEq, Eq)]
pub enum FindFault {
    NoTransaction,
    Memory,
}

impl From<AllocError> for FindFault {
    ghost use Rattle.guard_store.specs.declared.faults.FindFault.TheVariants as faults;
    ghost use Rattle.std.specs.Prelude.{◌≡◌};

    ghost from_gives = { λ _ e. e ≡ faults.Memory };

    fn from(_error: AllocError) -> Self {
        FindFault::Memory
    }
}

/// Why no results are reported.
#[derive(Clone, Copy, Debug, PartialEq, Eq)]
pub enum ReportFault {
    NoTransaction,
    Memory,
}

/// Why no bindings are answered.
#[derive(Clone, Copy, Debug, PartialEq, Eq)]
pub enum SelectFault {
    NoTransaction,
    /// There are more than 100,000.
    TooMany,
    Memory,
}
