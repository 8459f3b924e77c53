//! The files of the system and standard output.
ghost use Rattle.std.specs.Prelude.{◌≡◌, ◌≤◌, [], IfOk, length};

use crate::{Failed, Files, LoadFault, Sink};
use std::alloc::Global;
use std::fs;
use std::io::{self, ErrorKind, Read, Write};
use std::marker::Model;

/// The files of the system. They tell no contents.
#[derive(Drop)]
pub struct HostFiles<'a, R> {
    rt: &'a R,
    loaded: Vec<String>,
    failed: Vec<String>,
}

impl<'a, R> Model for HostFiles<'a, R> {
    ghost use Rattle.std.specs.Prelude.{map, string_bytes};
    ghost use Rattle.outside.specs.Memory.{HostState};

    ghost Value = { HostState };

    ghost view = { λ m. record {
      loaded = map string_bytes m.loaded.items;
      failed = map string_bytes m.failed.items;
    } };
}

impl<'a, R> HostFiles<'a, R> {
    /// Files of which none was loaded. It takes no memory.
    pub fn new(alloc: Global, rt: &'a R) -> Self
        ensures { result ≡ record { loaded = []; failed = [] } }
    {
        HostFiles {
            rt,
            loaded: Vec::new(alloc),
            failed: Vec::new(alloc),
        }
    }
}

// The first bytes of a file, at most `room` of them. No more are read; `truncate` is for the proof.
fn read_front<R: std::rt::Files>(
    rt: &R,
    alloc: Global,
    name: &str,
    room: usize,
) -> io::Result<Vec<u8>>
    ensures { IfOk result (λ v. length v.items ≤ room) }
{
    let mut bytes = Vec::new(alloc);
    fs::open(rt, name)?
        .take(room as u64)
        .read_to_end(&mut bytes)?;
    bytes.truncate(room);
    Ok(bytes)
}

impl<'a, R: std::rt::Files> Files for HostFiles<'a, R> {
    ghost use Rattle.std.specs.Prelude.{None};

    ghost holds = { λ m. None };

    ghost loaded = { λ m. m.loaded };

    ghost failed = { λ m. m.failed };

    fn load(&mut self, alloc: Global, name: &str, room: usize) -> Result<Vec<u8>, LoadFault> {
        let noted = String::from_str(alloc, name)?;
        let asked = String::from_str(alloc, name)?;
        self.failed.reserve(1)?;
        self.loaded.reserve(1)?;
        self.loaded.push_reserved(asked);
        match read_front(self.rt, alloc, name, room) {
            Ok(bytes) => Ok(bytes),
            Err(error) if error.kind() == ErrorKind::OutOfMemory => Err(LoadFault::Memory),
            Err(_) => {
                self.failed.push_reserved(noted);
                Err(LoadFault::Failed)
            }
        }
    }
}

/// Standard output. It doesn't tell what it took.
#[derive(Drop)]
pub struct HostSink<'a, R> {
    rt: &'a R,
    faults: u64,
}

impl<'a, R> Model for HostSink<'a, R> {
    ghost use Rattle.std.specs.Prelude.{ℕ};

    ghost Value = { ℕ };

    ghost view = { λ s. s.faults };
}

impl<'a, R> HostSink<'a, R> {
    /// Standard output, with no fault yet.
    pub fn new(rt: &'a R) -> Self
        ensures { result ≡ 0 }
    {
        HostSink { rt, faults: 0 }
    }
}

impl<'a, R: Print> Sink for HostSink<'a, R> {
    ghost use Rattle.std.specs.Prelude.{None};

    ghost taken = { λ s. None };

    ghost faults = { λ s. s };

    fn write(&mut self, piece: &[u8]) -> Result<usize, Failed> {
        match io::writer(self.rt).write(piece) {
            Ok(n) if n > 0 || piece.is_empty() => Ok(n),
            _ => {
                self.faults = self.faults.saturating_add(1);
                Err(Failed)
            }
        }
    }
}
