//! Why a line is refused.
use rdf_lexical::RefusalKind;
use std::alloc::AllocError;

// Why a line is refused, or memory.
#[derive(Clone, Copy, Debug, PartialEq, Eq)]
pub enum LineFault {
    Refused(RefusalKind),
    Memory,
}

impl From<AllocError> for LineFault {
    ghost use Rattle.ntriples_text.specs.declared.line_fault.LineFault.TheVariants as faults;
    ghost use Rattle.std.specs.Prelude.{◌≡◌};

    ghost from_gives = { λ _ e. e ≡ faults.Memory };

    fn from(_error: AllocError) -> Self {
        LineFault::Memory
    }
}
