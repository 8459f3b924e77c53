// Records that are kept, in the order of their numbers.
ghost use Rattle.std.specs.Prelude.{◌≡◌, ◌≢◌, ◌+◌, ◌<◌, ◌≤◌, ◌++◌, ◌∷◌, drop, insert, length, take, IsSome, MatchOption, OnErr, OnOk};
ghost use Rattle.std.specs.List.{Contains};
ghost use Rattle.std.specs.Vec.{vec_capacity};
ghost use Rattle.record_text.specs.declared.record.Record.{Record as RecordData};
ghost use Rattle.follower.specs.Followed.{placed};
ghost use Rattle.follower.specs.Records.{AreNumberedFrom};
ghost use Rattle.follower.specs.Versions.{left_after};

use record_text::Record;
use std::alloc::AllocError;

/// The applied record under a number.
pub(crate) fn applied_under(applied: &[Record], number: u64) -> Option<&Record>
    requires { AreNumberedFrom 1 applied.now }
    ensures { MatchOption result ((other : RecordData) → Contains applied.now other → other.number ≢ number)
        (λ found. Contains applied.now found.now × (found.now.number ≡ number)) }
{
    if number == 0 {
        return None;
    }
    if number > applied.len() as u64 {
        return None;
    }
    Some(&applied[(number - 1) as usize])
}

/// The kept record under a number.
pub(crate) fn kept_under(kept: &[Record], number: u64) -> Option<&Record>
    ensures { MatchOption result ((other : RecordData) → Contains kept.now other → other.number ≢ number)
        (λ found. Contains kept.now found.now × (found.now.number ≡ number)) }
{
    for found in kept {
        if found.number == number {
            return Some(found);
        }
    }
    None
}

// The place of a record with this number.
fn place_for(kept: &[Record], next: &Record) -> usize
    ensures bound { result ≤ length kept.now }
    ensures place { insert kept.now result next.now ≡ placed next.now kept.now }
{
    for (place, other) in kept.iter().enumerate() {
        if next.number < other.number {
            return place;
        }
    }
    kept.len()
}

/// Puts a record into its place.
pub(crate) fn put(kept: &mut Vec<Record>, next: Record) -> Result<(), AllocError>
    ensures ok { OnOk result (kept.new.items ≡ placed next kept.old.items) }
    ensures err { OnErr result (kept.new.items ≡ kept.old.items) }
{
    let place = place_for(kept, &next);
    kept.insert(place, next)?;
    Ok(())
}

// Moves the first records, so many, to the end of others. It takes no memory.
fn move_first(kept: &mut Vec<Record>, applied: &mut Vec<Record>, count: usize)
    requires there { count ≤ length kept.old.items }
    requires room { length applied.old.items + count ≤ vec_capacity applied.old }
    ensures kept { kept.new.items ≡ drop count kept.old.items }
    ensures applied { applied.new.items ≡ applied.old.items ++ take count kept.old.items }
{
    for _ in 0..count {
        let next = kept.remove(0);
        applied.push_reserved(next);
    }
}

// Drops the first record, where one is to be dropped.
fn drop_first(kept: &mut Vec<Record>, dropped: &Option<u64>)
    requires { IsSome dropped.now → 0 < length kept.old.items }
    ensures { kept.new.items ≡ left_after dropped.now kept.old.items }
{
    if dropped.is_some() {
        let _ = kept.remove(0);
    }
}

/// Puts a record at the end of others, and behind it the first of the kept ones, so many; and drops the
/// one behind these, where one is to be dropped. It takes no memory.
pub(crate) fn move_run(
    kept: &mut Vec<Record>,
    applied: &mut Vec<Record>,
    next: Record,
    count: usize,
    dropped: &Option<u64>,
)
    requires there { count ≤ length kept.old.items }
    requires one { IsSome dropped.now → count < length kept.old.items }
    requires room { length applied.old.items + (count + 1) ≤ vec_capacity applied.old }
    ensures kept { kept.new.items ≡ left_after dropped.now (drop count kept.old.items) }
    ensures applied { applied.new.items ≡ applied.old.items ++ next ∷ take count kept.old.items }
{
    applied.push_reserved(next);
    move_first(kept, applied, count);
    drop_first(kept, dropped);
}
