//! A run is replayed by its own history.
ghost use Rattle.session_player.specs.Laws.{NeverBoth, ReplaysAgain};

/// A history that gives a run has no place that isn't valid.
pub fn a_run_has_no_bad_place()
    ensures { NeverBoth }
{}

/// A run's own history, handed in, gives the run again.
pub fn a_run_is_replayed()
    ensures { ReplaysAgain }
{}
