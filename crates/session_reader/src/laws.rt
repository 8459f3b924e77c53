//! Laws of session files, each proved on a function of its own that does nothing.
ghost use Rattle.session_reader.specs.Laws.{AddedCommandsNeedHeader, FileHasOneSession, HeaderKeepsCommands};

/// A file of which no pattern is refused has one list of commands: each shapes graph is either staged or refused, by one
/// broken rule.
pub fn a_file_has_one_session()
    ensures { FileHasOneSession }
{}

/// A session file of language 1 has the same commands behind the header of language 2, blank nodes and all: that language
/// takes nothing away.
pub fn a_header_keeps_commands()
    ensures { HeaderKeepsCommands }
{}

/// No command of a file of language 1 is an attachment or a select.
pub fn added_commands_need_a_header()
    ensures { AddedCommandsNeedHeader }
{}
