// A log on a disk: made, opened, appended to.
ghost use Rattle.std.specs.Prelude.{◌≡◌, ◌≤◌, ◌<◌, ◌+◌, ◌^◌, ◌∷◌, ◌++◌, [], List, false, OnOk, IfOk, IfErr, MatchResult, length};
ghost use Rattle.disk.specs.Crashes.{EachCrash, Throughout, overwritten, settled};
ghost use Rattle.disk.specs.Faults.{Counts, CountsFailed, Rose};
ghost use Rattle.record_text.specs.declared.record.Record.{Record as RecordData};
ghost use Rattle.record_text.specs.Records.{IsReadableRecord, record_text};
ghost use Rattle.commit_log.specs.Format.{block, AreRecordsFrom, Opens};
ghost use Rattle.commit_log.specs.Texts.{EnterLeaves, PutLeaves};
ghost use Rattle.commit_log.specs.Log.{Appends, IsLog, IsNotCreated, IsSameLater, LeftOrRead, LogState, OpensOneOf, RefusesOpen};

use crate::read::{RecordFault, read_log};
use disk::{Disk, DiskFault, Failed};
use record_text::{Record, write_record};
use std::alloc::{AllocError, Global};
use std::marker::Model;

// The header, and a closed gate.
const EMPTY: [u8; 9] = *b"SGLOG 1\n\0";

/// Why no log was made.
#[derive(Clone, Copy, Debug, PartialEq, Eq)]
pub enum CreateFault {
    /// The disk has bytes.
    NotEmpty,
    /// The disk had a fault.
    Failed,
}

/// Why a record wasn't appended.
#[derive(Clone, Copy, Debug, PartialEq, Eq)]
pub enum AppendFault {
    /// An append failed before. The disk wasn't called.
    Closed,
    /// The disk had a fault. The log is closed from now on.
    Failed,
    /// Memory ran out. The disk wasn't called, and the log is as it was.
    Memory,
}

impl From<AllocError> for AppendFault {
    ghost use Rattle.commit_log.specs.declared.log.AppendFault.TheVariants.{Memory};

    ghost from_gives = { λ _ fault. fault ≡ Memory };

    fn from(_: AllocError) -> AppendFault {
        AppendFault::Memory
    }
}

/// Why no log was opened.
#[derive(Clone, Copy, Debug, PartialEq, Eq)]
pub enum OpenLogFault {
    /// The bytes are no log; the record with this number is to blame, as with `RecordFault`.
    BadLog(u64),
    /// The disk had a fault.
    Failed,
    /// Memory ran out.
    Memory,
}

/// A log on a disk.
pub struct Log<D: Disk> {
    disk: D,
    end: u64,
    count: u64,
    closed: bool,
}

impl<D: Disk> Model for Log<D> {
    ghost use Rattle.commit_log.specs.Log.{LogState, IsLog};

    ghost Value = { LogState D };

    ghost view = { λ l. record { disk = l.disk; end = l.end; count = l.count; closed = l.closed } };

    ghost invariant = { λ l. IsLog D.tells D.bytes D.history l.disk l.end l.count l.closed };
}

// Written by hand, so that what owns one calls it in place of having it written out.
impl<D: Disk + Drop> Drop for Log<D> {
    fn drop(self) {
        let Log {
            disk: _,
            end: _,
            count: _,
            closed: _,
        } = self;
    }
}

// Writes a piece and waits until it is durable.
fn put<D: Disk>(disk: &mut D, at: u64, piece: &[u8]) -> Result<(), Failed>
    requires { D.tells → at ≤ length (D.bytes disk.old) }
    ensures bytes { D.tells → OnOk result (D.bytes disk.new ≡ overwritten (D.bytes disk.old) at piece.now) }
    ensures durable { D.tells → OnOk result ((D.history disk.new).now ≡ settled (D.bytes disk.new)) }
    ensures crash { D.tells → (D.history disk.old).now ≡ settled (D.bytes disk.old) →
        Throughout (D.history disk.old) (D.history disk.new) (PutLeaves (D.bytes disk.old) at piece.now) }
    ensures left { D.tells → PutLeaves (D.bytes disk.old) at piece.now (D.bytes disk.new) }
    ensures bound { OnOk result (at + length piece.now < 2 ^ 63) }
    ensures chosen { D.chosen disk.new ≡ D.chosen disk.old }
    ensures faults { Counts result (D.faults disk.old) (D.faults disk.new) }
{
    disk.write_at(at, piece)?;
    disk.sync()?;
    Ok(())
}

// Puts a piece behind a closed gate, and then opens the gate.
fn enter<D: Disk>(disk: &mut D, gate: u64, piece: &[u8]) -> Result<(), Failed>
    requires small { gate < 2 ^ 63 }
    requires place { D.tells → gate < length (D.bytes disk.old) }
    ensures bytes { D.tells → OnOk result (D.bytes disk.new ≡ overwritten (overwritten (D.bytes disk.old) (gate + 1) piece.now) gate (1 ∷ [])) }
    ensures durable { D.tells → OnOk result ((D.history disk.new).now ≡ settled (D.bytes disk.new)) }
    ensures crash { D.tells → (D.history disk.old).now ≡ settled (D.bytes disk.old) →
        Throughout (D.history disk.old) (D.history disk.new) (EnterLeaves (D.bytes disk.old) gate piece.now) }
    ensures left { D.tells → EnterLeaves (D.bytes disk.old) gate piece.now (D.bytes disk.new) }
    ensures bound { OnOk result (gate + 1 + length piece.now < 2 ^ 63) }
    ensures chosen { D.chosen disk.new ≡ D.chosen disk.old }
    ensures faults { Counts result (D.faults disk.old) (D.faults disk.new) }
{
    put(disk, gate + 1, piece)?;
    put(disk, gate, &[1])?;
    Ok(())
}

/// Makes a log without a record on an empty disk. It takes no memory.
///
/// `NotEmpty` comes exactly where the disk has bytes, and changes nothing. After the Ok each crash leaves
/// a log without a record; what a crash inside the call leaves isn't promised.
pub fn create<D: Disk>(mut disk: D) -> Result<Log<D>, (D, CreateFault)>
    ensures fresh { IfOk result (λ log. (log.closed ≡ false) × (log.count ≡ 0)) }
    ensures crash { D.tells → IfOk result (λ log. EachCrash (λ image. Opens image []) (D.history log.disk).now
        × Opens (D.bytes log.disk) []) }
    ensures faults { MatchResult result (λ _. D.tells → D.bytes disk ≡ [])
        (λ e. IsNotCreated D.tells D.bytes D.history D.faults disk e.0 e.1) }
    ensures same { MatchResult result (λ log. IsSameLater D.chosen D.faults disk log.disk)
        (λ e. IsSameLater D.chosen D.faults disk e.0) }
{
    match disk.len() {
        Err(Failed) => return Err((disk, CreateFault::Failed)),
        Ok(0) => {}
        Ok(_) => return Err((disk, CreateFault::NotEmpty)),
    }
    match put(&mut disk, 0, &EMPTY) {
        Err(Failed) => Err((disk, CreateFault::Failed)),
        Ok(()) => Ok(Log {
            disk,
            end: 8,
            count: 0,
            closed: false,
        }),
    }
}

// All bytes of a disk, after a sync.
fn read_all<D: Disk>(alloc: Global, disk: &mut D) -> Result<Vec<u8>, DiskFault>
    ensures read { D.tells → IfOk result (λ v. v.items ≡ D.bytes disk.old) }
    ensures bytes { D.tells → D.bytes disk.new ≡ D.bytes disk.old }
    ensures durable { D.tells → OnOk result ((D.history disk.new).now ≡ settled (D.bytes disk.new)) }
    ensures crash { D.tells → Throughout (D.history disk.old) (D.history disk.new) (LeftOrRead (D.history disk.old).now (D.bytes disk.old)) }
    ensures small { IfOk result (λ v. length v.items < 2 ^ 63) }
    ensures chosen { D.chosen disk.new ≡ D.chosen disk.old }
    ensures faults { CountsFailed result (D.faults disk.old) (D.faults disk.new) }
{
    disk.sync()?;
    let size = disk.len()?;
    let bytes = disk.read(alloc, 0, size as usize)?;
    Ok(bytes)
}

/// Opens the log of a disk, and gives its records. It syncs before it reads. The records are numbered
/// from 1 and can be read again, also where the disk tells no bytes.
///
/// `BadLog` comes exactly where the bytes are no log, with the number of the record that is to blame. A
/// read gives the same bytes afterwards, whatever the answer, and a crash within the call leaves what it
/// could have left before it, or these bytes.
pub fn open<D: Disk>(alloc: Global, mut disk: D) -> Result<(Log<D>, Vec<Record>), (D, OpenLogFault)>
    ensures opens { D.tells → MatchResult result
        (λ r. Opens (D.bytes disk) r.1.items × (D.bytes r.0.disk ≡ D.bytes disk)
        × EachCrash (λ image. Opens image r.1.items) (D.history r.0.disk).now)
        (λ e. RefusesOpen (D.bytes disk) e.1 × (D.bytes e.0 ≡ D.bytes disk)) }
    ensures crash { D.tells → MatchResult result
        (λ r. Throughout (D.history disk) (D.history r.0.disk) (LeftOrRead (D.history disk).now (D.bytes disk)))
        (λ e. Throughout (D.history disk) (D.history e.0) (LeftOrRead (D.history disk).now (D.bytes disk))) }
    ensures numbered { IfOk result (λ r. AreRecordsFrom 1 r.1.items) }
    ensures fresh { IfOk result (λ r. (r.0.closed ≡ false) × (r.0.count ≡ length r.1.items)) }
    ensures failed { IfErr result (λ e. e.1 ≡ OpenLogFault.Failed → Rose (D.faults disk) (D.faults e.0)) }
    ensures same { MatchResult result (λ r. IsSameLater D.chosen D.faults disk r.0.disk)
        (λ e. IsSameLater D.chosen D.faults disk e.0) }
{
    let bytes = match read_all(alloc, &mut disk) {
        Ok(bytes) => bytes,
        Err(DiskFault::Failed) => return Err((disk, OpenLogFault::Failed)),
        Err(DiskFault::Memory) => return Err((disk, OpenLogFault::Memory)),
    };
    match read_log(alloc, &bytes) {
        Ok((records, end)) => {
            let log = Log {
                disk,
                end: end as u64,
                count: records.len() as u64,
                closed: false,
            };
            Ok((log, records))
        }
        Err(RecordFault::BadLog(number)) => Err((disk, OpenLogFault::BadLog(number))),
        Err(RecordFault::Memory) => Err((disk, OpenLogFault::Memory)),
    }
}

// What is written behind a closed gate: the block of a record, and the next gate.
fn block_of(alloc: Global, next: &Record) -> Result<Vec<u8>, AllocError>
    ensures piece { IfOk result (λ v. v.items ≡ block (record_text next.now) ++ 0 ∷ []) }
    ensures size { IfOk result (λ _. length (record_text next.now) < 2 ^ 64) }
{
    let text = write_record(alloc, next)?;
    let size = text.len() as u64;
    let mut bytes = size.to_be_bytes().to_vec(alloc)?;
    bytes.extend_from_slice(text.as_bytes())?;
    bytes.push(0)?;
    Ok(bytes)
}

impl<D: Disk> Log<D> {
    /// How many records the log has, all of them appended with Ok or found at opening.
    pub fn count(&self) -> u64
        ensures { result ≡ self.now.count }
    {
        self.count
    }

    /// Whether an append failed.
    pub fn is_closed(&self) -> bool
        ensures { result ≡ self.now.closed }
    {
        self.closed
    }

    /// Appends a record, whose number is one more than how many there are. It takes all its memory
    /// before it calls the disk.
    ///
    /// `Closed` comes exactly after an append that answered `Failed`. Whatever the answer, and at each
    /// moment of the call, a crash leaves the records that there were, or these and the new one; after
    /// the Ok it leaves these and the new one.
    pub fn append(&mut self, alloc: Global, next: &Record) -> Result<(), AppendFault>
        requires number { next.now.number ≡ self.old.count + 1 }
        requires readable { IsReadableRecord next.now }
        ensures answer { Appends D.faults self.old result self.new }
        ensures crash { D.tells → self.old.closed ≡ false → (records : List RecordData) → Opens (D.bytes self.old.disk) records →
            Throughout (D.history self.old.disk) (D.history self.new.disk) (OpensOneOf records next.now) }
        ensures left { D.tells → self.old.closed ≡ false → (records : List RecordData) → Opens (D.bytes self.old.disk) records →
            OpensOneOf records next.now (D.bytes self.new.disk) }
        ensures durable { D.tells → (records : List RecordData) → Opens (D.bytes self.old.disk) records →
            OnOk result (EachCrash (λ image. Opens image (records ++ next.now ∷ [])) (D.history self.new.disk).now
            × Opens (D.bytes self.new.disk) (records ++ next.now ∷ [])) }
        ensures same { IsSameLater D.chosen D.faults self.old.disk self.new.disk }
    {
        if self.closed {
            return Err(AppendFault::Closed);
        }
        let piece = block_of(alloc, next)?;
        match enter(&mut self.disk, self.end, &piece) {
            Err(Failed) => {
                self.closed = true;
                Err(AppendFault::Failed)
            }
            Ok(()) => {
                self.end += piece.len() as u64;
                self.count = next.number;
                Ok(())
            }
        }
    }

    /// The disk, to be opened again.
    pub fn into_disk(self) -> D
        ensures { result ≡ self.disk }
    {
        let Log {
            disk,
            end: _,
            count: _,
            closed: _,
        } = self;
        disk
    }
}
