//! Why a session file was not prepared.
use std::alloc::AllocError;

/// Why a session file was not prepared.
#[derive(Clone, Copy, Debug, PartialEq, Eq)]
pub enum PrepareFault {
    /// The first line that is no command, or the command of a block that doesn't end; from 1.
    Line(u64),
    Memory,
}

impl From<AllocError> for PrepareFault {
    ghost use Rattle.session_reader.specs.declared.prepare_fault.PrepareFault.TheVariants as faults;
    ghost use Rattle.std.specs.Prelude.{◌≡◌};

    ghost from_gives = { λ _ e. e ≡ faults.Memory };

    fn from(_error: AllocError) -> Self {
        PrepareFault::Memory
    }
}
