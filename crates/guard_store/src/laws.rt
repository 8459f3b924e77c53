//! What the calls say of the one history, in its own words.
ghost use Rattle.guard_store.specs.Laws.{FailedOpeningsKeepEntries, MeetingsKeepEntries, MeetingsKeepFronts, OpeningsAddOne, OpeningsKeepEntries, TurnsAddOne};

/// A turn adds one event of its caller to what the caller had seen and what others added: of the entries under the
/// caller's number the new front has those of the old one and this entry.
pub fn a_turn_adds_one_event()
    ensures { TurnsAddOne }
{}

/// After an opening both callers have seen the same. Of the openings and the entries under 0 it has those that the keeper
/// had seen and this one.
pub fn an_opening_adds_one_event()
    ensures { OpeningsAddOne }
{}

/// A meeting gives a front that begins with the keeper's and with the session's.
pub fn a_meeting_keeps_both_fronts()
    ensures { MeetingsKeepFronts }
{}

/// Of openings and entries under 0 the keeper's front after an opening has those of its old one and that opening; of each
/// session met so far it has just the entries of that session's last front.
pub fn an_opening_keeps_entries()
    ensures { OpeningsKeepEntries }
{}

/// After a call that opened nothing the keeper's front has those of its old one and its entry, which stands under 0; of each
/// session met so far it has just the entries of that session's last front.
pub fn a_failed_opening_keeps_entries()
    ensures { FailedOpeningsKeepEntries }
{}

/// After a meeting the keeper's front has the openings and the entries under 0 of its old one; of each session met so far,
/// now this one too, it has just the entries of that session's last front.
pub fn a_meeting_keeps_entries()
    ensures { MeetingsKeepEntries }
{}
