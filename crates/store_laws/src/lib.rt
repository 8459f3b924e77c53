//! Laws of the definitions, each proved on a function of its own.
//!
//! The functions do nothing: what each ensures is a statement about the definitions alone, for all
//! graphs, stores, files and orders. They show that the definitions say what they are meant to say.
//!
//! Storey: laws.
#![tactic(auto)]

ghost use Rattle.store_model.specs.Logs.{StepIsDeterministic, FaultsStop, UnloggedRun};
ghost use Rattle.store_model.specs.Store.{ReplyGivesOneState, StepGivesOneReply};
ghost use Rattle.store_laws.specs.Blocking.{ListingsTellBlocking, NoBlockingIsNoResult, NoBlockingStays, RowsRefuseAll};
ghost use Rattle.store_laws.specs.Commits.{CleanCommitsAreAccepted, UnloggedCleanCommits};
ghost use Rattle.store_laws.specs.Graphs.{LastChangeWins, GraphsStayAscending, ChangedIsInOneGraph, ChangedAscends};
ghost use Rattle.store_laws.specs.Joins.{SelectsAreSerializable};
ghost use Rattle.store_laws.specs.Names.{NumbersStay};
ghost use Rattle.store_laws.specs.Nodes.{AttachedAreGiven, GivenAreBlank, OnlyFreshGives, UnknownAscend, UnknownAreNotGiven, UnknownComesFirst};
ghost use Rattle.store_laws.specs.Runs.{OrderGivesOneRun};
ghost use Rattle.store_laws.specs.Serial.{FindsAreSerializable};
ghost use Rattle.store_laws.specs.Verdicts.{VerdictAside};
ghost use Rattle.store_laws.specs.Versions.{UnchangedTriplesStay, UnstagedShapesStay};

/// A triple is in the graph after some changes exactly where the last change to it added it, or
/// where none changed it and it was there before.
pub fn last_change_wins()
    ensures { LastChangeWins }
{}

/// Changes keep a graph ascending.
pub fn graphs_stay_ascending()
    ensures { GraphsStayAscending }
{}

/// The triples that a commit changed are those in exactly one of the graphs before and after it.
pub fn changed_is_in_one_graph()
    ensures { ChangedIsInOneGraph }
{}

/// The triples that a commit changed ascend.
pub fn changed_ascends()
    ensures { ChangedAscends }
{}

/// A term that has a number keeps it, whatever is named later.
pub fn numbers_stay()
    ensures { NumbersStay }
{}

/// One state at most follows a reply.
pub fn reply_gives_one_state()
    ensures { ReplyGivesOneState }
{}

/// The store gives one reply at most to an action, but for a log's failure at a commit that is
/// else accepted.
pub fn step_gives_one_reply()
    ensures { StepGivesOneReply }
{}

/// Without a log, the store gives one reply at most to an action, and one state follows.
pub fn step_is_deterministic()
    ensures { StepIsDeterministic }
{}

/// A store is stopped exactly where it was at the beginning of its history, or its log failed in
/// it.
pub fn faults_stop()
    ensures { FaultsStop }
{}

/// Without a log, a store that isn't stopped at the beginning of its history is never stopped.
pub fn unlogged_run()
    ensures { UnloggedRun }
{}

/// Files, an order of sessions and the place at which the log fails, if it does, have one run at most.
pub fn order_gives_one_run()
    ensures { OrderGivesOneRun }
{}

/// Without its verdict a commit is answered alike, but for why it evaluated again.
pub fn verdict_aside()
    ensures { VerdictAside }
{}

/// A triple that no commit between two versions changed is in both graphs or in neither.
pub fn unchanged_triples_stay()
    ensures { UnchangedTriplesStay }
{}

/// Where no commit between two versions staged shapes, both have the same shapes graph.
pub fn unstaged_shapes_stay()
    ensures { UnstagedShapesStay }
{}

/// A commit that nothing overtook, whose graph would be within the limit and without a result that
/// blocks, is accepted by a store that isn't stopped, or its log failed at it.
pub fn clean_commits_are_accepted()
    ensures { CleanCommitsAreAccepted }
{}

/// Without a log it is accepted.
pub fn unlogged_clean_commits()
    ensures { UnloggedCleanCommits }
{}

/// No result of a graph blocks exactly where none of its listing does.
pub fn listings_tell_blocking()
    ensures { ListingsTellBlocking }
{}

/// Where all results block, none blocks exactly where there is none.
pub fn no_blocking_is_no_result()
    ensures { NoBlockingIsNoResult }
{}

/// Where all results block, a commit is refused exactly where its graph would have one.
pub fn rows_refuse_all()
    ensures { RowsRefuseAll }
{}

/// Where no result blocks at the beginning of a history, none does in any state of it.
pub fn no_blocking_stays()
    ensures { NoBlockingStays }
{}

/// Naming the terms of a block that has blank nodes of its own gives out just these.
pub fn given_are_blank()
    ensures { GivenAreBlank }
{}

/// The nodes for which an attachment is refused are the blank nodes of its terms that weren't
/// given out.
pub fn unknown_are_not_given()
    ensures { UnknownAreNotGiven }
{}

/// They ascend, so that the one that is told is the least.
pub fn unknown_ascend()
    ensures { UnknownAscend }
{}

/// Where a blank node of an attachment wasn't given out, the least such is told, whatever the
/// limit, and nothing is named.
pub fn unknown_comes_first()
    ensures { UnknownComesFirst }
{}

/// No action but the naming of such a block gives out a node.
pub fn only_fresh_gives()
    ensures { OnlyFreshGives }
{}

/// Each blank node of an attachment whose terms were named had been given out.
pub fn attached_are_given()
    ensures { AttachedAreGiven }
{}

/// The finds of a transaction whose commit was accepted give the same on the graph just before that
/// commit as they gave on the graph at its begin.
pub fn finds_are_serializable()
    ensures { FindsAreSerializable }
{}

/// Patterns that are all, with their variables open, among the finds of a transaction whose commit was accepted have the
/// same bindings on the graph just before that commit as they had on the graph at its begin.
pub fn selects_are_serializable()
    ensures { SelectsAreSerializable }
{}
