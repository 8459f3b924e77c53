// A disk in memory, which keeps all its moments, and whose calls fail where a test wants it.
ghost use Rattle.std.specs.Prelude.{◌≡◌, ◌≤◌, ◌++◌, ◌∷◌, [], None, length, take, IfOk, OnErr, OnOk};
ghost use Rattle.disk.specs.Crashes.{overwritten, settled, written, synced};
ghost use Rattle.disk.specs.Memory.{MemState};

use crate::{Disk, DiskFault, Failed};
use rdf_text::Text;
use std::alloc::{AllocError, Global};
use std::marker::Model;
use std::mem;

// Places are numbers below this.
const PLACES: u64 = 1 << 63;

/// The bytes that a sync made durable, and the ranges that were written since, each by its place and
/// its size.
pub struct MemMoment {
    durable: Vec<u8>,
    unsynced: Vec<(u64, u64)>,
}

impl Model for MemMoment {
    ghost use Rattle.disk.specs.Crashes.{Moment};

    ghost Value = { Moment };

    ghost view = { λ m. record { durable = m.durable.items; unsynced = m.unsynced.items } };
}

// Written by hand, so that what owns one calls it in place of having it written out.
impl Drop for MemMoment {
    fn drop(self) {
        let MemMoment {
            durable: _,
            unsynced: _,
        } = self;
    }
}

impl MemMoment {
    /// The bytes that the last sync made durable.
    pub fn durable(&self) -> &[u8]
        ensures { result.now ≡ self.now.durable }
    {
        &self.durable
    }

    /// The ranges that were written since, each by its place and its size.
    pub fn unsynced(&self) -> &[(u64, u64)]
        ensures { result.now ≡ self.now.unsynced }
    {
        &self.unsynced
    }

    fn settled(bytes: Vec<u8>, alloc: Global) -> MemMoment
        ensures { result ≡ settled bytes.items }
    {
        MemMoment {
            durable: bytes,
            unsynced: Vec::new(alloc),
        }
    }

    fn with_range(&self, alloc: Global, at: u64, size: u64) -> Result<MemMoment, AllocError>
        ensures { IfOk result (λ m. m ≡ record { durable = self.now.durable; unsynced = self.now.unsynced ++ (at, size) ∷ [] }) }
    {
        let durable = self.durable.to_vec(alloc)?;
        let mut unsynced = self.unsynced.to_vec(alloc)?;
        unsynced.push((at, size))?;
        Ok(MemMoment { durable, unsynced })
    }
}

/// A disk in memory. The calls with the listed numbers, the first call's being 1, fail; a write that
/// fails still puts the first bytes of its piece, so many as `short` says. A write or a sync for which
/// memory runs out fails too.
pub struct MemDisk {
    alloc: Global,
    bytes: Vec<u8>,
    chosen: Option<Text>,
    past: Vec<MemMoment>,
    moment: MemMoment,
    fail: Vec<u64>,
    short: usize,
    calls: u64,
    faults: u64,
}

impl Model for MemDisk {
    ghost use Rattle.disk.specs.Memory.{MemState};

    ghost Value = { MemState };

    ghost view = { λ d. record {
      bytes = d.bytes.items;
      chosen = d.chosen;
      history = record { past = d.past.items; now = d.moment };
      fail = d.fail.items;
      short = d.short;
      calls = d.calls;
      faults = d.faults;
    } };
}

// Written by hand, so that what owns one calls it in place of having it written out.
impl Drop for MemDisk {
    fn drop(self) {
        let MemDisk {
            alloc: _,
            bytes: _,
            chosen: _,
            past: _,
            moment: _,
            fail: _,
            short: _,
            calls: _,
            faults: _,
        } = self;
    }
}

impl MemDisk {
    /// A disk that holds these bytes, all of them durable. Its calls with the numbers `fail` fail, and a
    /// write that fails puts the first `short` bytes of its piece.
    pub fn new(
        alloc: Global,
        bytes: Vec<u8>,
        fail: Vec<u64>,
        short: usize,
    ) -> Result<MemDisk, AllocError>
        ensures { IfOk result (λ d. d ≡ record {
          bytes = bytes.items;
          chosen = None;
          history = record { past = []; now = settled bytes.items };
          fail = fail.items;
          short = short;
          calls = 0;
          faults = 0;
        }) }
    {
        let durable = bytes.to_vec(alloc)?;
        Ok(MemDisk {
            alloc,
            bytes,
            chosen: None,
            past: Vec::new(alloc),
            moment: MemMoment::settled(durable, alloc),
            fail,
            short,
            calls: 0,
            faults: 0,
        })
    }

    /// What a read gives.
    pub fn bytes(&self) -> &[u8]
        ensures { result.now ≡ self.now.bytes }
    {
        &self.bytes
    }

    /// The moments before the present one, the first one first.
    pub fn past(&self) -> &[MemMoment]
        ensures { result.now ≡ self.now.history.past }
    {
        &self.past
    }

    /// The present moment.
    pub fn moment(&self) -> &MemMoment
        ensures { result.now ≡ self.now.history.now }
    {
        &self.moment
    }

    // Puts the first bytes of a piece, so many as `taken` says. The moment has the range of all of it.
    fn put(&mut self, at: u64, piece: &[u8], taken: usize) -> Result<(), AllocError>
        requires place { at ≤ length self.old.bytes }
        requires taken { taken ≤ length piece.now }
        ensures ok { OnOk result (self.new ≡ record self.old {
          bytes = overwritten self.old.bytes at (take taken piece.now);
          history = written at (length piece.now) self.old.history;
        }) }
        ensures err { OnErr result (self.new ≡ self.old) }
    {
        let next = overwrite(self.alloc, &self.bytes, at as usize, &piece[..taken])?;
        let moment = self.moment.with_range(self.alloc, at, piece.len() as u64)?;
        move_on(&mut self.past, &mut self.moment, moment)?;
        self.bytes = next;
        Ok(())
    }

    fn keep(&mut self) -> Result<(), AllocError>
        ensures ok { OnOk result (self.new ≡ record self.old { history = synced self.old.bytes self.old.history }) }
        ensures err { OnErr result (self.new ≡ self.old) }
    {
        let moment = MemMoment::settled(self.bytes.to_vec(self.alloc)?, self.alloc);
        move_on(&mut self.past, &mut self.moment, moment)
    }
}

// The bytes with a piece written over them.
fn overwrite(alloc: Global, bytes: &[u8], at: usize, piece: &[u8]) -> Result<Vec<u8>, AllocError>
    requires { at ≤ length bytes.now }
    ensures { IfOk result (λ v. v.items ≡ overwritten bytes.now at piece.now) }
{
    let mut next = bytes[..at].to_vec(alloc)?;
    next.extend_from_slice(piece)?;
    if piece.len() < bytes.len() - at {
        next.extend_from_slice(&bytes[at + piece.len()..])?;
    }
    Ok(next)
}

// A new moment comes, and the present one joins the past.
fn move_on(
    past: &mut Vec<MemMoment>,
    present: &mut MemMoment,
    next: MemMoment,
) -> Result<(), AllocError>
    ensures ok { OnOk result ((past.new.items ≡ past.old.items ++ present.old ∷ []) × (present.new ≡ next)) }
    ensures err { OnErr result ((past.new.items ≡ past.old.items) × (present.new ≡ present.old)) }
{
    past.reserve(1)?;
    past.push_reserved(mem::replace(present, next));
    Ok(())
}

impl Disk for MemDisk {
    ghost tells = { Unit {0} };

    ghost bytes = { λ d. d.bytes };

    ghost history = { λ d. d.history };

    ghost chosen = { λ d. d.chosen };

    ghost faults = { λ d. d.faults };

    fn choose(&mut self, alloc: Global, name: &str) -> Result<(), DiskFault> {
        self.calls = self.calls.saturating_add(1);
        self.chosen = Some(Text::new(alloc, name)?);
        if self.fail.contains(&self.calls) {
            self.faults = self.faults.saturating_add(1);
            return Err(DiskFault::Failed);
        }
        Ok(())
    }

    fn len(&mut self) -> Result<u64, Failed> {
        self.calls = self.calls.saturating_add(1);
        if self.fail.contains(&self.calls) {
            self.faults = self.faults.saturating_add(1);
            return Err(Failed);
        }
        Ok(self.bytes.len() as u64)
    }

    fn read(&mut self, alloc: Global, at: u64, n: usize) -> Result<Vec<u8>, DiskFault> {
        self.calls = self.calls.saturating_add(1);
        if self.fail.contains(&self.calls) {
            self.faults = self.faults.saturating_add(1);
            return Err(DiskFault::Failed);
        }
        let at = at as usize;
        Ok(self.bytes[at..at + n].to_vec(alloc)?)
    }

    fn write_at(&mut self, at: u64, piece: &[u8]) -> Result<(), Failed> {
        self.calls = self.calls.saturating_add(1);
        let fits = at < PLACES && (piece.len() as u64) < PLACES - at;
        if !fits {
            self.faults = self.faults.saturating_add(1);
            return Err(Failed);
        }
        let fails = self.fail.contains(&self.calls);
        let taken = if fails {
            self.short.min(piece.len())
        } else {
            piece.len()
        };
        if self.put(at, piece, taken).is_err() || fails {
            self.faults = self.faults.saturating_add(1);
            return Err(Failed);
        }
        Ok(())
    }

    fn sync(&mut self) -> Result<(), Failed> {
        self.calls = self.calls.saturating_add(1);
        if self.fail.contains(&self.calls) {
            self.faults = self.faults.saturating_add(1);
            return Err(Failed);
        }
        if self.keep().is_err() {
            self.faults = self.faults.saturating_add(1);
            return Err(Failed);
        }
        Ok(())
    }
}
