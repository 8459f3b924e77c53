// Laws of replicas.
ghost use Rattle.replica.specs.Laws.{OneFollower, ReplicaFollows, TurnsAddOne};

/// A turn adds one entry to what its caller had seen and what others added, and to the caller's own list.
pub fn a_turn_adds_one_entry()
    ensures { TurnsAddOne }
{}

/// A list of entries leads to one follower.
pub fn entries_make_one_follower()
    ensures { OneFollower }
{}

/// Where each record that a replica was fed is the leader's at its number, in any order, with repeats and losses, its version
/// is the greatest number up to which every record was accepted, and each version up to it has the leader's data and shapes
/// graphs after its first records, so many.
pub fn a_replica_follows_a_leader()
    ensures { ReplicaFollows }
{}
