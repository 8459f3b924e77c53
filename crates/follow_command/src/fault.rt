// Why nothing is followed.
ghost use Rattle.std.specs.Prelude.{◌≡◌};
ghost use Rattle.follow_command.specs.Faults.{of_file};

use input_files::FileFault;
use std::alloc::AllocError;

/// Why a log was not followed.
#[derive(Clone, Copy, Debug, PartialEq, Eq)]
pub enum FollowFault {
    /// A file could not be read.
    ReadFault,
    /// A file has more than 16,777,216 bytes. The log is file 1, and the order is file 2.
    TooLong { file: u32 },
    /// The file is no log: the number of the record that is to blame, 0 for the header or its gate.
    BadLog { record: u64 },
    /// The log is read, and this is the first place of the order that is no number of a record, from 1; 0 where its text doesn't
    /// begin as an order.
    BadOrder { place: u64 },
    /// Memory ran out.
    Memory,
}

// Why a file of this number gave no text.
pub(crate) fn file_fault(fault: FileFault, file: u32) -> FollowFault
    ensures { result ≡ of_file fault file }
{
    match fault {
        FileFault::Failed => FollowFault::ReadFault,
        FileFault::TooLong => FollowFault::TooLong { file },
        FileFault::Memory => FollowFault::Memory,
    }
}

impl From<AllocError> for FollowFault {
    ghost use Rattle.follow_command.specs.declared.fault.FollowFault.TheVariants.{Memory};

    ghost from_gives = { λ _ fault. fault ≡ Memory };

    fn from(_: AllocError) -> FollowFault {
        FollowFault::Memory
    }
}
