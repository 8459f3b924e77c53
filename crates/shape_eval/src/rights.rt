/// Allows one evaluation, and is used up by it.
#[derive(Drop)]
pub struct Permit {
    counted: (),
}

// A permit for an evaluation that was counted.
pub(crate) fn grant() -> Permit {
    Permit { counted: () }
}

impl Permit {
    // The evaluation that it allows is made.
    pub(crate) fn spend(self) {
        let Permit { counted: () } = self;
    }
}
