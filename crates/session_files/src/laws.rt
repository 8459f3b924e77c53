//! What follows from the definitions alone.
ghost use Rattle.session_files.specs.Laws.{ReplaysPrint, UnrefusedReadAlike};

/// A printed run, whose last line is handed in as a history with the same files and limits, prints the same bytes, where the
/// line is within a file's length and the maker refuses the same patterns.
pub fn a_print_is_replayed()
    ensures { ReplaysPrint }
{}

/// Files of which no pattern is refused hold the same sessions at each reading.
pub fn unrefused_files_read_alike()
    ensures { UnrefusedReadAlike }
{}
