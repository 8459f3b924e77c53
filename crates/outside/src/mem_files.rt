//! Files in memory.
ghost use Rattle.std.specs.Prelude.{◌≡◌, [], MatchResult, take};
ghost use Rattle.std.specs.Option.{option_copied};
ghost use Rattle.outside.specs.Memory.{content};

use crate::{Files, LoadFault};
use std::alloc::Global;
use std::marker::Model;

/// A name and the bytes that it holds.
#[derive(Debug)]
pub struct MemFile {
    pub name: String,
    pub bytes: Vec<u8>,
}

// Written by hand, so that what owns one calls it in place of having it written out.
impl Drop for MemFile {
    fn drop(self) {
        let MemFile { name: _, bytes: _ } = self;
    }
}

/// Files in memory. The loads with the listed numbers, the first load's being 1, fail; where no number
/// is listed a load fails only for a name that no file has.
pub struct MemFiles {
    files: Vec<MemFile>,
    fail: Vec<u64>,
    calls: u64,
    loaded: Vec<String>,
    failed: Vec<String>,
}

impl Model for MemFiles {
    ghost use Rattle.std.specs.Prelude.{map, string_bytes};
    ghost use Rattle.outside.specs.Memory.{FilesState};

    ghost Value = { FilesState };

    ghost view = { λ m. record {
      files = m.files.items;
      fail = m.fail.items;
      calls = m.calls;
      loaded = map string_bytes m.loaded.items;
      failed = map string_bytes m.failed.items;
    } };
}

// Written by hand, so that what owns one calls it in place of having it written out.
impl Drop for MemFiles {
    fn drop(self) {
        let MemFiles {
            files: _,
            fail: _,
            calls: _,
            loaded: _,
            failed: _,
        } = self;
    }
}

impl MemFiles {
    ghost use Rattle.outside.specs.Memory.{FilesState};

    /// Files of which the loads with the numbers `fail` fail. It takes no memory.
    pub fn new(alloc: Global, files: Vec<MemFile>, fail: Vec<u64>) -> MemFiles
        ensures { result ≡ record { files = files.items; fail = fail.items; calls = 0; loaded = []; failed = [] } }
    {
        MemFiles {
            files,
            fail,
            calls: 0,
            loaded: Vec::new(alloc),
            failed: Vec::new(alloc),
        }
    }
}

// The bytes of the first file of this name.
fn find<'a>(files: &'a [MemFile], name: &str) -> Option<&'a [u8]>
    ensures { option_copied result ≡ content files.entry.now name.now }
{
    for file in files {
        if file.name.as_str() == name {
            return Some(file.bytes.as_slice());
        }
    }
    None
}

// A copy of the first bytes, at most `room` of them.
#[tactic(auto, using(std::proofs::lemmas::List::take_min))]
fn copy_front(alloc: Global, bytes: &[u8], room: usize) -> Result<Vec<u8>, LoadFault>
    ensures { MatchResult result (λ v. v.items ≡ take room bytes.now)
        (λ fault. fault ≡ LoadFault.Memory) }
{
    let end = room.min(bytes.len());
    Ok(bytes[..end].to_vec(alloc)?)
}

impl Files for MemFiles {
    ghost use Rattle.std.specs.Prelude.{Some};
    ghost use Rattle.outside.specs.Counts.{counted};
    ghost use Rattle.outside.specs.Memory.{content, LoadsInMemory};

    ghost holds = { λ m. Some (content m.files) };

    ghost loaded = { λ m. m.loaded };

    ghost failed = { λ m. m.failed };

    ghost load_gives = { λ old name room result new.
        (new ≡ record old { calls = counted old.calls; loaded = new.loaded; failed = new.failed })
        × LoadsInMemory new name result };

    fn load(&mut self, alloc: Global, name: &str, room: usize) -> Result<Vec<u8>, LoadFault> {
        self.calls = self.calls.saturating_add(1);
        let noted = String::from_str(alloc, name)?;
        let asked = String::from_str(alloc, name)?;
        self.failed.reserve(1)?;
        self.loaded.reserve(1)?;
        self.loaded.push_reserved(asked);
        if self.fail.contains(&self.calls) {
            self.failed.push_reserved(noted);
            return Err(LoadFault::Failed);
        }
        match find(&self.files, name) {
            Some(bytes) => copy_front(alloc, bytes, room),
            None => {
                self.failed.push_reserved(noted);
                Err(LoadFault::Failed)
            }
        }
    }
}
