//! Files that are read by their names.
ghost use Rattle.std.specs.Prelude.{◌≡◌, ◌≤◌, ℕ, List, Option, Result, Vec, IfOk, MatchResult, length, ⊤};
ghost use Rattle.std.specs.Global.{Global};
ghost use Rattle.outside.specs.Files.{Contents, Loads};
ghost use Rattle.outside.specs.Faults.{Notes, NotesLoad};
ghost use Rattle.outside.specs.declared.files.LoadFault.{LoadFault};

use std::alloc::{AllocError, Global};

/// Why a load gave no bytes.
#[derive(Clone, Copy, Debug, PartialEq, Eq)]
pub enum LoadFault {
    /// The file could not be read.
    Failed,
    /// Memory ran out.
    Memory,
}

impl From<AllocError> for LoadFault {
    ghost use Rattle.outside.specs.declared.files.LoadFault.TheVariants.{Memory};

    ghost from_gives = { λ _ fault. fault ≡ Memory };

    fn from(_: AllocError) -> LoadFault {
        LoadFault::Memory
    }
}

/// Files that are read by their names.
pub trait Files {
    /// What the names hold, where that is told.
    ghost holds: { Self → Option Contents };

    /// The names that were loaded, in order, whether or not bytes came. None is ever lost.
    ghost loaded: { Self → List (List ℕ) };

    /// The names whose loads failed, in order. None is ever lost.
    ghost failed: { Self → List (List ℕ) };

    /// What else is known of a load: of the files before, the name, the room, the answer and the files
    /// after. It is nothing, unless an impl says so.
    ghost load_gives: { Self → List ℕ → ℕ → Result (Vec ℕ Global) LoadFault → Self → Type 0 } = { λ _ _ _ _ _. ⊤ };

    /// The first `room` bytes of what the name holds, or all of them if they are fewer.
    ///
    /// What the names hold stays, whatever the answer. The name joins the list of those that were
    /// loaded; where memory ran out it may have. `Failed` comes only where the name joined the list of
    /// those whose loads failed, which is otherwise as it was.
    fn load(&mut self, alloc: Global, name: &str, room: usize) -> Result<Vec<u8>, LoadFault>
        ensures bytes { IfOk result (λ v. Loads (holds self.old) name.now room v.items) }
        ensures bound { IfOk result (λ v. length v.items ≤ room) }
        ensures holds { holds self.new ≡ holds self.old }
        ensures failed { MatchResult result (λ _. failed self.new ≡ failed self.old)
            (λ fault. Notes fault (failed self.old) name.now (failed self.new)) }
        ensures loaded { NotesLoad result (loaded self.old) name.now (loaded self.new) }
        ensures gives { load_gives self.old name.now room result self.new };
}
