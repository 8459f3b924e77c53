//! Replies counted.
ghost use Rattle.std.specs.Prelude.{◌≡◌, ◌≤◌, ◌<◌, ◌^◌, length};
ghost use Rattle.std.specs.List.{count_by};
ghost use Rattle.generate_command.specs.Counts;
ghost use Rattle.generate_command.specs.Counts.{count_replies};

use collections::Sequence;
use session_model::SessionReply;

/// How many replies of two kinds there are.
#[derive(Clone, Copy, Debug)]
pub(crate) struct ReplyCounts {
    /// A transaction was committed.
    pub(crate) commits: usize,
    /// A commit was refused by the shapes.
    pub(crate) refused: usize,
}

fn is_commit(reply: &SessionReply) -> bool
    ensures { result ≡ Counts.is_commit reply.now }
{
    matches!(reply, SessionReply::Committed(_))
}

fn is_refusal(reply: &SessionReply) -> bool
    ensures { result ≡ Counts.is_refusal reply.now }
{
    matches!(reply, SessionReply::Refused { .. })
}

// Of one session.
fn count_in(replies: &[SessionReply]) -> ReplyCounts
    ensures commits { result.commits ≡ count_by Counts.is_commit replies.now }
    ensures refused { result.refused ≡ count_by Counts.is_refusal replies.now }
    ensures few_commits { result.commits < 2 ^ 60 }
    ensures few_refused { result.refused < 2 ^ 60 }
{
    let mut commits = 0;
    let mut refused = 0;
    for reply in replies {
        commits += usize::from(is_commit(reply));
        refused += usize::from(is_refusal(reply));
    }
    ReplyCounts { commits, refused }
}

/// Of a few sessions.
pub(crate) fn count_replies(all: &[Sequence<SessionReply>]) -> ReplyCounts
    requires { length all.now ≤ 4 }
    ensures commits { result.commits ≡ count_replies Counts.is_commit all.now }
    ensures refused { result.refused ≡ count_replies Counts.is_refusal all.now }
{
    let mut commits = 0;
    let mut refused = 0;
    for replies in all {
        let counts = count_in(replies.as_slice());
        commits += counts.commits;
        refused += counts.refused;
    }
    ReplyCounts { commits, refused }
}
