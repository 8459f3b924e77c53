//! What a session's own events say of the one history of all sessions.
//!
//! `Follows` (specs/Following.antt) says it, for callers that share a store. `following_runs` is the law that a history in which
//! each session follows its file is a run of the files in its own order, at whose end the store is in the history's state.
//!
//! Storey: sessions.
#![tactic(auto)]

ghost use Rattle.session_laws.specs.Following.{FollowingRuns};

/// A history in which each session follows its file is a run of the files in its own order, which ends in its state.
pub fn following_runs()
    ensures { FollowingRuns }
{}
