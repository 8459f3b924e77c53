// What turns leave behind.
use follower::Fed;
use record_text::Record;

/// What one turn did.
#[derive(Debug)]
pub enum Entry {
    /// The follower was fed the record, and gave this answer.
    Feed(Record, Fed),
    /// The newest version was served, which is this one.
    Read(u64),
    /// Memory ran out, and the follower is as it was.
    Void,
}

// Written by hand, so that what owns one calls it in place of having it written out.
impl Drop for Entry {
    fn drop(self) {
        match self {
            Entry::Feed(_, _) => {}
            Entry::Read(_) => {}
            Entry::Void => {}
        }
    }
}
