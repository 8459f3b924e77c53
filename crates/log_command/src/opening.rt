//! Logs on disks that are chosen by name.
ghost use Rattle.std.specs.Prelude.{◌≡◌, ◌<◌, ◌≤◌, ◌+◌, ◌^◌, MatchResult, IfOk, Some};
ghost use Rattle.log_command.specs.Devices.{IsKept, seen};
ghost use Rattle.log_command.specs.Opened.{BlamesDisk, IsMade, IsStored, StopsCreation, StopsLog, of_open};

use crate::restoring::restore;
use crate::{CreateLogFault, LogFault};
use collections::Sequence;
use commit_core::{Core, Limits};
use commit_log::{CreateFault, Log, OpenLogFault, create, open};
use disk::{Disk, DiskFault};
use outside::Maker;
use std::alloc::Global;
use std::thread::Threads;

/// A store with its log.
#[derive(Drop)]
pub struct StoredLog<D: Disk> {
    /// The store that the log's records restore.
    pub core: Core,
    /// The log, which has these records.
    pub log: Log<D>,
    /// The first number that each session may give to a blank node, from session 1 on.
    pub first_numbers: Sequence<u32>,
}

/// Makes a log without a record under this name. The disk must have no bytes there.
///
/// After the Ok each crash leaves a log without a record; what a crash inside the call leaves isn't promised.
pub fn create_log<D: Disk>(
    alloc: Global,
    mut disk: D,
    name: &str,
) -> (Result<(), CreateLogFault>, D)
    ensures answer { let was = seen D.bytes D.history D.chosen D.faults disk in
        let is = seen D.bytes D.history D.chosen D.faults result.1 in
        MatchResult result.0 (λ _. IsMade D.tells name.now was is) (StopsCreation D.tells name.now was is) }
    ensures faults { D.faults disk ≤ D.faults result.1 }
{
    match disk.choose(alloc, name) {
        Ok(()) => {}
        Err(DiskFault::Failed) => return (Err(CreateLogFault::ReadFault), disk),
        Err(DiskFault::Memory) => return (Err(CreateLogFault::Memory), disk),
    }
    match create(disk) {
        Ok(log) => (Ok(()), log.into_disk()),
        Err((disk, CreateFault::NotEmpty)) => (Err(CreateLogFault::NotEmpty), disk),
        Err((disk, CreateFault::Failed)) => (Err(CreateLogFault::ReadFault), disk),
    }
}

// A fault of opening, as one of the log.
fn open_fault(fault: OpenLogFault) -> LogFault
    ensures { result ≡ of_open fault }
{
    match fault {
        OpenLogFault::BadLog(record) => LogFault::BadLog { record },
        OpenLogFault::Failed => LogFault::ReadFault,
        OpenLogFault::Memory => LogFault::Memory,
    }
}

/// Opens the log of this name, and restores the store of its records, in which every result blocks: it is in step with the
/// log. It also says at which numbers so many sessions may begin to number their blank nodes. The last graph is validated whole,
/// and threads share out the evaluations among each other.
///
/// What is wrong comes in this order: the disk; the bytes; a blank number; the last shapes graph; a record that doesn't fit; the
/// limits; a result of the last graph. A read gives the same bytes afterwards, whatever the answer.
pub fn open_log<D: Disk, M: Maker, T: Threads + Sync>(
    rt: &T,
    alloc: Global,
    mut disk: D,
    limits: Limits,
    name: &str,
    sessions: u32,
    maker: &mut M,
) -> Result<StoredLog<D>, (LogFault, D)>
    requires small { limits.terms + 2 < 2 ^ 32 }
    requires few { sessions ≤ 64 }
    ensures answer { MatchResult result (λ stored. IsStored D.tells D.bytes D.history limits disk sessions stored.core stored.log stored.first_numbers)
        (λ e. StopsLog D.tells (D.bytes disk) limits (M.refused maker.old) (M.refused maker.new) e.0) }
    ensures refused { IfOk result (λ _. M.refused maker.new ≡ M.refused maker.old) }
    ensures blames { let was = seen D.bytes D.history D.chosen D.faults disk in
        MatchResult result (λ stored. D.chosen stored.log.disk ≡ Some name.now)
        (λ e. BlamesDisk name.now was (seen D.bytes D.history D.chosen D.faults e.1) e.0) }
    ensures kept { let was = seen D.bytes D.history D.chosen D.faults disk in
        MatchResult result (λ stored. IsKept D.tells was (seen D.bytes D.history D.chosen D.faults stored.log.disk))
        (λ e. IsKept D.tells was (seen D.bytes D.history D.chosen D.faults e.1)) }
{
    match disk.choose(alloc, name) {
        Ok(()) => {}
        Err(DiskFault::Failed) => return Err((LogFault::ReadFault, disk)),
        Err(DiskFault::Memory) => return Err((LogFault::Memory, disk)),
    }
    match open(alloc, disk) {
        Ok((log, records)) => match restore(rt, alloc, limits, records, sessions, maker) {
            Ok((core, first_numbers)) => Ok(StoredLog {
                core,
                log,
                first_numbers,
            }),
            Err(fault) => Err((fault, log.into_disk())),
        },
        Err((disk, fault)) => Err((open_fault(fault), disk)),
    }
}
