//! The text of one file.
ghost use Rattle.std.specs.Prelude.{◌≡◌, ◌<◌, ◌≤◌, List, MatchResult, length};
ghost use Rattle.outside.specs.Faults.{Refusal};
ghost use Rattle.input_files.specs.Faults.{IsCause};
ghost use Rattle.input_files.specs.Lengths;
ghost use Rattle.input_files.specs.Lengths.{HoldsText};
ghost use Rattle.input_files.specs.Loads.{Loads, LoadsOne, NoneFailed};

use outside::{Files, LoadFault};
use std::alloc::Global;

// A file may have one byte less; this many are asked for, to see whether it has more.
const ROOM: usize = 16_777_217;

/// Why a file gave no text.
#[derive(Clone, Copy, Debug, PartialEq, Eq)]
pub enum FileFault {
    /// It could not be read.
    Failed,
    /// It has more than 16,777,216 bytes.
    TooLong,
    /// Memory ran out.
    Memory,
}

// A text that is as long as a file may be.
fn within_length(bytes: Vec<u8>) -> Result<Vec<u8>, FileFault>
    requires { length bytes.items ≤ Lengths.room }
    ensures { MatchResult result (λ text. (text.items ≡ bytes.items) × (length bytes.items < Lengths.room)) (λ fault. (fault ≡ FileFault.TooLong) × (length bytes.items ≡ Lengths.room)) }
{
    if bytes.len() == ROOM {
        return Err(FileFault::TooLong);
    }
    Ok(bytes)
}

/// The text that the name holds, of at most 16,777,216 bytes. Whatever patterns were refused, none is by a load.
pub fn load_file<F: Files>(alloc: Global, files: &mut F, name: &str) -> Result<Vec<u8>, FileFault>
    ensures answer { (refused : List Refusal) → let before : Loads = record { loaded = F.loaded files.old; failed = F.failed files.old; refused = refused } in
        let after : Loads = record { loaded = F.loaded files.new; failed = F.failed files.new; refused = refused } in
        MatchResult result (λ text. HoldsText (F.holds files.old) name.now text.items × LoadsOne name.now before after × NoneFailed before after)
        (λ fault. IsCause fault (F.holds files.old) name.now before after) }
    ensures holds { F.holds files.new ≡ F.holds files.old }
{
    match files.load(alloc, name, ROOM) {
        Ok(bytes) => within_length(bytes),
        Err(LoadFault::Failed) => Err(FileFault::Failed),
        Err(LoadFault::Memory) => Err(FileFault::Memory),
    }
}
