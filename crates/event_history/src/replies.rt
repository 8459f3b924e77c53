//! Replies compared.
ghost use Rattle.std.specs.Prelude.{◌≡◌};
ghost use Rattle.event_history.specs.Replies.{same_again, same_reply};

use store_model::{Again, Reply};

fn is_same_again(first: &Again, second: &Again) -> bool
    ensures { result ≡ same_again first.now second.now }
{
    match (first, second) {
        (Again::No, Again::No) => true,
        (Again::OwnShapes, Again::OwnShapes) => true,
        (Again::NoVerdict, Again::NoVerdict) => true,
        (Again::ShapesChanged(commit), Again::ShapesChanged(other)) => commit == other,
        (Again::Touched(commit, triple), Again::Touched(other, touched)) => {
            commit == other && triple == touched
        }
        _ => false,
    }
}

/// Whether two replies are equal.
pub fn is_same_reply(first: &Reply, second: &Reply) -> bool
    ensures { result ≡ same_reply first.now second.now }
{
    match (first, second) {
        (Reply::Session(session), Reply::Session(other)) => session == other,
        (Reply::SessionsFull, Reply::SessionsFull) => true,
        (Reply::Version(version), Reply::Version(other)) => version == other,
        (Reply::Named, Reply::Named) => true,
        (Reply::Unknown(node), Reply::Unknown(other)) => node == other,
        (Reply::Full(count), Reply::Full(other)) => count == other,
        (Reply::Conflict(commit, triple), Reply::Conflict(other, overtaken)) => {
            commit == other && triple == overtaken
        }
        (Reply::FullTriples(count), Reply::FullTriples(other)) => count == other,
        (Reply::Refused(rows, again), Reply::Refused(others, why)) => {
            rows.as_slice() == others.as_slice() && is_same_again(again, why)
        }
        (Reply::Done(number, again), Reply::Done(other, why)) => {
            number == other && is_same_again(again, why)
        }
        (Reply::LogFault, Reply::LogFault) => true,
        (Reply::Stopped(version), Reply::Stopped(other)) => version == other,
        (Reply::Nothing, Reply::Nothing) => true,
        _ => false,
    }
}
