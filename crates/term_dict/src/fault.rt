//! Why terms were not named.
use std::alloc::AllocError;

/// Why terms were not named.
#[derive(Clone, Copy, Debug, PartialEq, Eq)]
pub enum NameFault {
    /// So many terms would be named, more than the limit.
    Full { count: usize },
    Memory,
}

impl From<AllocError> for NameFault {
    ghost use Rattle.term_dict.specs.declared.fault.NameFault.TheVariants as faults;
    ghost use Rattle.std.specs.Prelude.{◌≡◌};

    ghost from_gives = { λ _ e. e ≡ faults.Memory };

    fn from(_error: AllocError) -> Self {
        NameFault::Memory
    }
}
