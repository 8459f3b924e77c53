//! A sink in memory.
ghost use Rattle.std.specs.Prelude.{◌≡◌, ◌<◌, [], IfOk};

use crate::{Failed, Sink};
use std::alloc::{AllocError, Global};
use std::marker::Model;

/// A sink in memory, with room for a stated number of bytes. The writes with the listed numbers, the
/// first write's being 1, fail; where no number is listed no write fails while room is left.
pub struct MemSink {
    taken: Vec<u8>,
    faults: u64,
    most: usize,
    room: usize,
    fail: Vec<u64>,
    calls: u64,
}

impl Model for MemSink {
    ghost use Rattle.std.specs.Prelude.{◌<◌, ◌≤◌, vec_len, vec_capacity};
    ghost use Rattle.outside.specs.Memory.{SinkState};

    ghost Value = { SinkState };

    ghost view = { λ s. record {
      taken = s.taken.items;
      faults = s.faults;
      most = s.most;
      room = s.room;
      fail = s.fail.items;
      calls = s.calls;
    } };

    ghost invariant = { λ s.
        (0 < s.most) × (vec_len s.taken ≤ s.room) × (s.room ≤ vec_capacity s.taken) };
}

// Written by hand, so that what owns one calls it in place of having it written out.
impl Drop for MemSink {
    fn drop(self) {
        let MemSink {
            taken: _,
            faults: _,
            most: _,
            room: _,
            fail: _,
            calls: _,
        } = self;
    }
}

impl MemSink {
    ghost use Rattle.outside.specs.Memory.{SinkState};

    /// A sink that takes at most `most` bytes of one piece and `room` bytes in all, and whose writes
    /// with the numbers `fail` fail. Its room is made here: a write needs no memory.
    pub fn new(
        alloc: Global,
        most: usize,
        room: usize,
        fail: Vec<u64>,
    ) -> Result<MemSink, AllocError>
        requires { 0 < most }
        ensures { IfOk result (λ s. s ≡ record {
          taken = [];
          faults = 0;
          most = most;
          room = room;
          fail = fail.items;
          calls = 0;
        }) }
    {
        Ok(MemSink {
            taken: Vec::with_capacity(alloc, room)?,
            faults: 0,
            most,
            room,
            fail,
            calls: 0,
        })
    }

    /// All bytes that it took.
    pub fn taken(&self) -> &[u8]
        ensures { result.now ≡ self.now.taken }
    {
        self.taken.as_slice()
    }

    /// How many pieces were offered.
    pub fn calls(&self) -> u64
        ensures { result ≡ self.now.calls }
    {
        self.calls
    }

    /// How many writes failed.
    pub fn faults(&self) -> u64
        ensures { result ≡ self.now.faults }
    {
        self.faults
    }
}

impl Sink for MemSink {
    ghost use Rattle.std.specs.Prelude.{Some};
    ghost use Rattle.outside.specs.Memory.{WritesInMemory};

    ghost taken = { λ s. Some s.taken };

    ghost faults = { λ s. s.faults };

    ghost write_gives = { WritesInMemory };

    fn write(&mut self, piece: &[u8]) -> Result<usize, Failed> {
        self.calls = self.calls.saturating_add(1);
        let left = self.room - self.taken.len();
        let n = self.most.min(piece.len()).min(left);
        if self.fail.contains(&self.calls) || left == 0 && !piece.is_empty() {
            self.faults = self.faults.saturating_add(1);
            return Err(Failed);
        }
        self.taken.extend_from_slice(&piece[..n]).unwrap();
        Ok(n)
    }
}
