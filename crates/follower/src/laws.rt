// Laws of followers.
ghost use Rattle.follower.specs.Laws.{AnswersOnce, FollowsLeader, NamesAccepted};

/// Where each record that a follower was fed is the leader's at its number, in any order, with repeats
/// and losses, its version is the greatest number up to which every record was accepted, and each
/// version up to it has the leader's data and shapes graphs after its first records, so many.
pub fn a_follower_has_the_leaders_graphs()
    ensures { FollowsLeader }
{}

/// A follower has named the terms of all records that it ever applied or kept.
pub fn the_terms_are_those_accepted()
    ensures { NamesAccepted }
{}

/// A follower gives one answer to a record, and is one thing afterwards.
pub fn one_answer_for_each_record()
    ensures { AnswersOnce }
{}
