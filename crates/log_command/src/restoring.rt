//! The store that the records of a log restore.
ghost use Rattle.std.specs.Prelude.{◌≡◌, ◌<◌, ◌≤◌, ◌+◌, ◌^◌, MatchResult, IfOk, length};
ghost use Rattle.store_model.specs.declared.event.Limits.{Limits as LimitsData};
ghost use Rattle.commit_log.specs.Format.{AreRecordsFrom};
ghost use Rattle.commit_core.specs.Restored.{IsRestoreFault, IsRestored, restored};
ghost use Rattle.log_command.specs.Restoring.{AreRestored, IsReady, StopsRestore, of_restore};

use crate::LogFault;
use crate::nodes::{first_numbers, is_spent};
use crate::staged::last_graph;
use collections::Sequence;
use commit_core::{Core, Limits, RestoreFault};
use outside::Maker;
use record_text::Record;
use shape_eval::Steps;
use shapes_graph::ShapesGraph;
use std::alloc::Global;
use std::marker::Brand;
use std::sync::ledger::{Blank, Ledger};
use std::thread::Threads;

// The store, whose evaluations are counted by this ledger.
fn restore_counted<L: Ledger, T: Threads + Sync>(
    rt: &T,
    alloc: Global,
    limits: Limits,
    records: Vec<Record>,
    shapes: ShapesGraph,
    blank: Blank,
) -> Result<Core, RestoreFault>
    requires small { limits.terms + 2 < 2 ^ 32 }
    requires numbered { AreRecordsFrom 1 records.items }
    requires shapes { shapes ≡ (restored records.items).shapes }
    requires name { blank.name ≡ L.name }
    requires parts { blank.parts ≡ L.parts }
    requires some { 0 < L.parts }
    ensures { MatchResult result (IsRestored limits records.items) (IsRestoreFault limits records.items) }
{
    let mut steps = Steps::<L>::begin(blank);
    Core::restore(rt, alloc, limits, records, shapes, &mut steps)
}

// A fault of restoring so many records, as one of the log.
fn restore_fault(fault: RestoreFault, count: u64) -> LogFault
    ensures { result ≡ of_restore fault count }
{
    match fault {
        RestoreFault::Misfit { record } => LogFault::BadLog { record },
        RestoreFault::TooLarge => LogFault::TooLarge,
        RestoreFault::Blocked => LogFault::BadLog { record: count },
        RestoreFault::Memory => LogFault::Memory,
    }
}

// The last shapes graph of the records, and the first numbers of so many sessions.
fn shapes_and_numbers<M: Maker>(
    alloc: Global,
    records: &[Record],
    sessions: u32,
    maker: &mut M,
) -> Result<(ShapesGraph, Sequence<u32>), LogFault>
    requires few { sessions ≤ 64 }
    requires numbered { AreRecordsFrom 1 records.now }
    ensures answer { MatchResult result (λ both. IsReady records.now sessions both.0 both.1)
        (λ fault. (l : LimitsData) → StopsRestore l records.now (M.refused maker.old) (M.refused maker.new) fault) }
    ensures refused { IfOk result (λ _. M.refused maker.new ≡ M.refused maker.old) }
{
    if is_spent(records) {
        return Err(LogFault::Spent);
    }
    let shapes = match last_graph(alloc, maker, records) {
        Ok(shapes) => shapes,
        Err(fault) => return Err(fault),
    };
    let numbers = first_numbers(alloc, records, sessions)?;
    Ok((shapes, numbers))
}

/// The store that the records of a log restore, and the first numbers that so many sessions may give to their blank nodes. Threads
/// share out the evaluations among each other.
pub(crate) fn restore<M: Maker, T: Threads + Sync>(
    rt: &T,
    alloc: Global,
    limits: Limits,
    records: Vec<Record>,
    sessions: u32,
    maker: &mut M,
) -> Result<(Core, Sequence<u32>), LogFault>
    requires small { limits.terms + 2 < 2 ^ 32 }
    requires few { sessions ≤ 64 }
    requires numbered { AreRecordsFrom 1 records.items }
    ensures answer { MatchResult result (λ stored. AreRestored limits records.items sessions stored.0 stored.1)
        (StopsRestore limits records.items (M.refused maker.old) (M.refused maker.new)) }
    ensures refused { IfOk result (λ _. M.refused maker.new ≡ M.refused maker.old) }
{
    let (shapes, numbers) = match shapes_and_numbers(alloc, &records, sessions, maker) {
        Ok(both) => both,
        Err(fault) => return Err(fault),
    };
    let count = records.len() as u64;
    match restore_counted::<Brand, T>(rt, alloc, limits, records, shapes, Blank::new(1)) {
        Ok(core) => Ok((core, numbers)),
        Err(fault) => Err(restore_fault(fault, count)),
    }
}
