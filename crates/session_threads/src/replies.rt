//! What a session is told of the store's answers.
ghost use Rattle.std.specs.Prelude.{◌≡◌, ◌≤◌, IfOk, MatchResult, length};
ghost use Rattle.bgp_query.specs.Bindings.{most_bindings};
ghost use Rattle.session_model.specs.Sessions;
ghost use Rattle.session_transaction.specs.Replies.{IsCommitReply, IsListed};
ghost use Rattle.session_threads.specs.Replies.{IsAbortReply, IsBeginReply, IsBlockReply, IsFindRefusal, IsReportRefusal, IsSelectRefusal, IsStageReply};

use collections::Sequence;
use guard_store::{
    AttachFault, BeginFault, CommitFault, Committed, FindFault, ReportFault, SelectFault,
    StageFault,
};
use rdf_model::{Term, Triple};
use session_model::{Report, SessionReply};
use session_transaction::{reply_of_commit, reply_of_find, reply_of_select};
use std::alloc::{AllocError, Global};

/// The reply to the begin of a transaction.
pub fn begin_reply(answer: Result<u64, BeginFault>) -> Result<SessionReply, AllocError>
    ensures { IfOk result (IsBeginReply answer) }
{
    match answer {
        Ok(version) => Ok(SessionReply::Begun(version)),
        Err(BeginFault::AlreadyOpen) => Ok(SessionReply::AlreadyOpen),
        Err(BeginFault::Memory) => Err(AllocError),
    }
}

/// The reply to a block, which is `done` where it was staged.
pub fn stage_reply(
    answer: Result<(), StageFault>,
    done: SessionReply,
) -> Result<SessionReply, AllocError>
    ensures { IfOk result (IsStageReply answer done) }
{
    match answer {
        Ok(()) => Ok(done),
        Err(StageFault::NoTransaction) => Ok(SessionReply::NoTransaction),
        Err(StageFault::Full { count: _ }) => Ok(SessionReply::FullTerms),
        Err(StageFault::Memory) => Err(AllocError),
    }
}

/// The reply to a block of changes, which is `done` where it was staged.
pub fn block_reply(
    answer: Result<(), AttachFault>,
    done: SessionReply,
) -> Result<SessionReply, AllocError>
    ensures { IfOk result (IsBlockReply answer done) }
{
    match answer {
        Ok(()) => Ok(done),
        Err(AttachFault::NoTransaction) => Ok(SessionReply::NoTransaction),
        Err(AttachFault::Unknown { node }) => Ok(SessionReply::UnknownNode(node)),
        Err(AttachFault::Full { count: _ }) => Ok(SessionReply::FullTerms),
        Err(AttachFault::Memory) => Err(AllocError),
    }
}

/// The reply to a find.
pub fn find_reply(
    alloc: Global,
    answer: Result<Vec<Triple>, FindFault>,
) -> Result<SessionReply, AllocError>
    ensures { IfOk result (λ reply. MatchResult answer (λ v. reply ≡ Sessions.find_reply v.items) (λ fault. IsFindRefusal fault reply)) }
{
    match answer {
        Ok(triples) => reply_of_find(alloc, &triples),
        Err(FindFault::NoTransaction) => Ok(SessionReply::NoTransaction),
        Err(FindFault::Memory) => Err(AllocError),
    }
}

/// The reply to a select.
pub fn select_reply(
    alloc: Global,
    answer: Result<Vec<Sequence<Term>>, SelectFault>,
) -> Result<SessionReply, AllocError>
    requires { IfOk answer (λ rows. length rows.items ≤ most_bindings) }
    ensures { IfOk result (λ reply. MatchResult answer (λ rows. reply ≡ Sessions.select_reply rows.items) (λ fault. IsSelectRefusal fault reply)) }
{
    match answer {
        Ok(bindings) => reply_of_select(alloc, &bindings),
        Err(SelectFault::NoTransaction) => Ok(SessionReply::NoTransaction),
        Err(SelectFault::TooMany) => Ok(SessionReply::SelectFull),
        Err(SelectFault::Memory) => Err(AllocError),
    }
}

/// The reply to a report.
pub fn report_reply(answer: Result<Report, ReportFault>) -> Result<SessionReply, AllocError>
    ensures { IfOk result (λ reply. MatchResult answer (λ report. reply ≡ SessionReply.Reported report) (λ fault. IsReportRefusal fault reply)) }
{
    match answer {
        Ok(report) => Ok(SessionReply::Reported(report)),
        Err(ReportFault::NoTransaction) => Ok(SessionReply::NoTransaction),
        Err(ReportFault::Memory) => Err(AllocError),
    }
}

/// The reply to an abort.
pub fn abort_reply(aborted: bool) -> SessionReply
    ensures { IsAbortReply aborted result }
{
    if aborted {
        SessionReply::Aborted
    } else {
        SessionReply::NoTransaction
    }
}

/// The reply to a commit.
pub fn commit_reply(
    alloc: Global,
    answer: Result<Committed, CommitFault>,
) -> Result<SessionReply, AllocError>
    requires { IfOk answer IsListed }
    ensures { IfOk result (λ reply. MatchResult answer (λ committed. IsCommitReply committed reply) (λ fault. (fault ≡ CommitFault.NoTransaction) × (reply ≡ SessionReply.NoTransaction))) }
{
    match answer {
        Ok(committed) => reply_of_commit(alloc, committed),
        Err(CommitFault::NoTransaction) => Ok(SessionReply::NoTransaction),
        Err(CommitFault::Memory) => Err(AllocError),
    }
}
