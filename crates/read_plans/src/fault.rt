//! Why looks were not planned.
use std::alloc::AllocError;

/// Why the looks of a shape were not planned.
#[derive(Debug, Drop)]
pub enum PlanFault {
    /// The shape has more than 4,096 looks. They were counted as far as one more.
    TooWide { count: usize },
    /// There was not enough memory.
    Memory,
}

impl From<AllocError> for PlanFault {
    ghost use Rattle.read_plans.specs.declared.fault.PlanFault.TheVariants as faults;
    ghost use Rattle.std.specs.Prelude.{◌≡◌};

    ghost from_gives = { λ _ fault. fault ≡ faults.Memory };

    fn from(_error: AllocError) -> PlanFault {
        PlanFault::Memory
    }
}
