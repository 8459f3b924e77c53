//! How the program ends.
ghost use Rattle.std.specs.Prelude.{◌≡◌};
ghost use Rattle.std.specs.Process.{exit_status};

use command_line::WordsFault;
use follow_command::FollowFault;
use log_command::{CreateLogFault, LogFault};
use session_files::RunFault;
use std::process::ExitCode;
use validate_command::{BadInput, ValidateFault};

/// How the program ends.
#[derive(Debug, Drop, PartialEq, Eq)]
pub enum Status {
    /// All input was read to its end, and all was written. A graph that was validated conforms; evidence is verified.
    Done,
    /// A graph that was validated doesn't conform; its report was written, or the evidence of its results.
    Invalid,
    /// The words aren't those of a command.
    Usage,
    /// A file could not be read.
    ReadFault,
    /// Standard output failed; what it took is a prefix of what was due.
    WriteFault,
    /// The first line of a session that is no command, or the command of a block without its end.
    BadSession { session: u32, line: u64 },
    /// Memory ran out.
    Memory,
    /// A file has more than 16,777,216 bytes.
    TooLong { file: u32 },
    /// More than 64 session files are named.
    TooManyFiles,
    /// The first place of a history that isn't valid, from 1; 0 where its text doesn't begin as one.
    BadHistory { place: u64 },
    /// The files of a validation aren't what they should be.
    BadInput(BadInput),
    /// The record of a log that is to blame, from 1: it isn't whole or isn't spelled as records are, it staged shapes that break a
    /// rule, it doesn't fit, or it is the last and leads to a graph with a result. 0 where no log begins, or where one is to be made
    /// and something is there.
    BadLog { entry: u64 },
    /// A blank node of a log has a number over 4,278,190,078.
    LogSpent,
    /// The records of a log pass the limits.
    LogTooLarge,
    /// The log failed at a commit, and the store stopped there; all was written.
    LogStopped,
    /// The first place of an order of records that is no number of one, from 1; 0 where its text doesn't begin as one.
    BadOrder { place: u64 },
    /// The first block of evidence, from 1, that isn't spelled as blocks are, or doesn't show its result.
    BadEvidence { block: u32 },
}

impl From<WordsFault> for Status {
    ghost use Rattle.shacl_guard.specs.Statuses.{of_words};

    ghost from_gives = { λ fault status. status ≡ of_words fault };

    fn from(fault: WordsFault) -> Status {
        match fault {
            WordsFault::Usage => Status::Usage,
            WordsFault::Memory => Status::Memory,
        }
    }
}

impl From<RunFault> for Status {
    ghost use Rattle.shacl_guard.specs.Statuses.{of_run};

    ghost from_gives = { λ fault status. status ≡ of_run fault };

    fn from(fault: RunFault) -> Status {
        match fault {
            RunFault::TooManyFiles => Status::TooManyFiles,
            RunFault::ReadFault => Status::ReadFault,
            RunFault::TooLong { file } => Status::TooLong { file },
            RunFault::BadSession { session, line } => Status::BadSession { session, line },
            RunFault::BadHistory { place } => Status::BadHistory { place },
            RunFault::Memory => Status::Memory,
        }
    }
}

impl From<ValidateFault> for Status {
    ghost use Rattle.shacl_guard.specs.Statuses.{of_validation};

    ghost from_gives = { λ fault status. status ≡ of_validation fault };

    fn from(fault: ValidateFault) -> Status {
        match fault {
            ValidateFault::ReadFault => Status::ReadFault,
            ValidateFault::TooLong { file } => Status::TooLong { file },
            ValidateFault::BadInput(bad) => Status::BadInput(bad),
            ValidateFault::Memory => Status::Memory,
        }
    }
}

impl From<CreateLogFault> for Status {
    ghost use Rattle.shacl_guard.specs.Statuses.{of_creation};

    ghost from_gives = { λ fault status. status ≡ of_creation fault };

    fn from(fault: CreateLogFault) -> Status {
        match fault {
            CreateLogFault::ReadFault => Status::ReadFault,
            CreateLogFault::NotEmpty => Status::BadLog { entry: 0 },
            CreateLogFault::Memory => Status::Memory,
        }
    }
}

impl From<LogFault> for Status {
    ghost use Rattle.shacl_guard.specs.Statuses.{of_log};

    ghost from_gives = { λ fault status. status ≡ of_log fault };

    fn from(fault: LogFault) -> Status {
        match fault {
            LogFault::ReadFault => Status::ReadFault,
            LogFault::BadLog { record: entry } => Status::BadLog { entry },
            LogFault::Spent => Status::LogSpent,
            LogFault::Pattern { node } => Status::BadInput(BadInput::Pattern { node }),
            LogFault::TooLarge => Status::LogTooLarge,
            LogFault::Memory => Status::Memory,
        }
    }
}

impl From<FollowFault> for Status {
    ghost use Rattle.shacl_guard.specs.Statuses.{of_following};

    ghost from_gives = { λ fault status. status ≡ of_following fault };

    fn from(fault: FollowFault) -> Status {
        match fault {
            FollowFault::ReadFault => Status::ReadFault,
            FollowFault::TooLong { file } => Status::TooLong { file },
            FollowFault::BadLog { record: entry } => Status::BadLog { entry },
            FollowFault::BadOrder { place } => Status::BadOrder { place },
            FollowFault::Memory => Status::Memory,
        }
    }
}

impl Status {
    ghost use Rattle.shacl_guard.specs.Statuses.{code_of, of_conforms};

    /// The status of a validation.
    pub(crate) fn of_conforms(conforms: bool) -> Status
        ensures { result ≡ of_conforms conforms }
    {
        if conforms {
            Status::Done
        } else {
            Status::Invalid
        }
    }

    /// The exit status.
    pub fn code(&self) -> u8
        ensures { result ≡ code_of self.now }
    {
        match self {
            Status::Done => 0,
            Status::Invalid => 1,
            Status::Usage => 2,
            Status::ReadFault => 3,
            Status::WriteFault => 4,
            Status::BadSession { .. } => 5,
            Status::Memory => 6,
            Status::TooLong { .. } => 7,
            Status::TooManyFiles => 8,
            Status::BadHistory { .. } => 9,
            Status::BadInput(_) => 10,
            Status::BadLog { .. } => 11,
            Status::LogSpent => 12,
            Status::LogTooLarge => 13,
            Status::LogStopped => 14,
            Status::BadOrder { .. } => 15,
            Status::BadEvidence { .. } => 16,
        }
    }

    /// The code that the process ends with, whose number is that of the status.
    pub fn exit_code(&self) -> ExitCode
        ensures { exit_status result ≡ code_of self.now }
    {
        ExitCode::from(self.code())
    }
}
