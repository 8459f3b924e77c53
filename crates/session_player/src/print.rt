//! The text of a run.
ghost use Rattle.std.specs.Prelude.{◌≡◌, ◌++◌, List, ℕ, OnOk, IfOk, codes, string_bytes};
ghost use Rattle.std.specs.Fmt.{decimal};
ghost use Rattle.session_model.specs.Print.{AreReplyLines, IsReplyText, IsRunText, history_text, line};

use crate::run::Run;
use session_model::SessionReply;
use std::alloc::{AllocError, Global};

fn push_reply(alloc: Global, out: &mut String, reply: &SessionReply) -> Result<(), AllocError>
    ensures { OnOk result ((text : List ℕ) × IsReplyText reply.now text × (string_bytes out.new ≡ string_bytes out.old ++ line text)) }
{
    match reply {
        SessionReply::Reported(report) => {
            let text = report.text(alloc)?;
            write!(out, "{text}\n")
        }
        reply => write!(out, "{reply}\n"),
    }
}

fn push_session(
    alloc: Global,
    out: &mut String,
    number: u64,
    replies: &[SessionReply],
) -> Result<(), AllocError>
    ensures { OnOk result ((lines : List ℕ) × AreReplyLines replies.now lines × (string_bytes out.new ≡ string_bytes out.old ++ (line (codes "session " ++ decimal number) ++ lines))) }
{
    write!(out, "session {number}\n")?;
    for reply in replies {
        push_reply(alloc, out, reply)?;
    }
    Ok(())
}

fn push_history(out: &mut String, order: &[u32]) -> Result<(), AllocError>
    ensures { OnOk result (string_bytes out.new ≡ string_bytes out.old ++ history_text order.now) }
{
    write!(out, "history")?;
    for session in order {
        write!(out, " {session}")?;
    }
    write!(out, "\n")
}

/// The text of a run: each session with its replies, then the history.
pub fn text_of(alloc: Global, run: &Run) -> Result<String, AllocError>
    ensures { IfOk result (λ text. IsRunText run.now.replies.items run.now.order.items (string_bytes text)) }
{
    let mut out = String::new(alloc);
    for (i, replies) in run.replies.iter().enumerate() {
        push_session(alloc, &mut out, i as u64 + 1, replies.as_slice())?;
    }
    push_history(&mut out, &run.order)?;
    Ok(out)
}
