//! Why a join has no answer.
use std::alloc::AllocError;

/// Why there are no bindings to answer.
#[derive(Clone, Copy, Debug, PartialEq, Eq)]
pub enum JoinFault {
    /// There are more than 100,000.
    TooMany,
    Memory,
}

impl From<AllocError> for JoinFault {
    ghost use Rattle.bgp_query.specs.declared.fault.JoinFault.TheVariants as faults;
    ghost use Rattle.std.specs.Prelude.{◌≡◌};

    ghost from_gives = { λ _ e. e ≡ faults.Memory };

    fn from(_error: AllocError) -> Self {
        JoinFault::Memory
    }
}
