//! Why a text isn't verified.
ghost use Rattle.std.specs.Prelude.{◌≡◌};

use std::alloc::AllocError;

/// Why a text isn't verified.
#[derive(Clone, Copy, Debug, PartialEq, Eq)]
pub enum VerdictFault {
    /// The first block, from 1, that isn't spelled as blocks are, or doesn't show its result.
    Block { number: u32 },
    /// Memory ran out.
    Memory,
}

impl From<AllocError> for VerdictFault {
    ghost use Rattle.evidence_verdict.specs.declared.fault.VerdictFault.TheVariants.{Memory};

    ghost from_gives = { λ _ fault. fault ≡ Memory };

    fn from(_: AllocError) -> VerdictFault {
        VerdictFault::Memory
    }
}
