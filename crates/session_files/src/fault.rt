//! Why session files were not run.
ghost use Rattle.std.specs.Prelude.{◌≡◌};

use std::alloc::AllocError;

/// Why session files were not run.
#[derive(Clone, Copy, Debug, PartialEq, Eq)]
pub enum RunFault {
    /// More than 64 session files are named.
    TooManyFiles,
    /// A file could not be read.
    ReadFault,
    /// A file has more than 16,777,216 bytes. The file of a history is file 1.
    TooLong { file: u32 },
    /// The first line of a session that is no command, or the command of a block without its end.
    BadSession { session: u32, line: u64 },
    /// The first place of a history that isn't valid, from 1; 0 where its text doesn't begin as one.
    BadHistory { place: u64 },
    /// Memory ran out.
    Memory,
}

impl From<AllocError> for RunFault {
    ghost use Rattle.session_files.specs.declared.fault.RunFault.TheVariants.{Memory};

    ghost from_gives = { λ _ fault. fault ≡ Memory };

    fn from(_: AllocError) -> RunFault {
        RunFault::Memory
    }
}
