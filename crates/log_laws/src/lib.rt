//! Laws above the store and the follower: the records of a store's commits restore what these made of it, and a follower of them
//! has its graphs. Each function does nothing, and ensures a statement about the definitions alone.
//!
//! Storey: laws.
#![tactic(auto)]

ghost use Rattle.log_laws.specs.Laws.{FollowersGraphsAreRestored, FollowsStore, RecordsRestoreCommits};

/// The records that restored a store, and behind them one for each commit that it accepted since, each fit the graph before them,
/// and restore the graph, the shapes graph and the commits that the store has come to.
pub fn records_restore_commits()
    ensures { RecordsRestoreCommits }
{}

/// What a follower makes of records is what they restore: its data graph, and its shapes graph where each one that was staged
/// ascends, as in a log; and to it they all fit exactly where they fit in turn.
pub fn followers_graphs_are_restored()
    ensures { FollowersGraphsAreRestored }
{}

/// Where each record that a follower was fed is one of a log's, in any order, with repeats and losses, each version up to its own
/// has the data and shapes graphs of the store that so many first records of the log restore.
pub fn a_follower_has_the_stores_graphs()
    ensures { FollowsStore }
{}
