// The command.
ghost use Rattle.std.specs.Prelude.{◌≡◌, List, IfErr, MatchResult, string_bytes};
ghost use Rattle.outside.specs.Faults.{Refusal};
ghost use Rattle.input_files.specs.Loads.{Loads};
ghost use Rattle.follow_command.specs.Faults.{IsFileFault, RefusesTexts, StopsFollow};
ghost use Rattle.follow_command.specs.Followed.{AreFollowed, HoldBoth, IsFollowed, LoadsBoth};

use crate::fault::file_fault;
use crate::feeding::follow_records;
use crate::order::read_order;
use crate::{FollowFault, FollowedFiles};
use commit_log::{RecordFault, read_records};
use input_files::load_file;
use outside::Files;
use std::alloc::Global;

// The numbers of the files.
const LOG_FILE: u32 = 1;

const ORDER_FILE: u32 = 2;

// The log and the order.
fn load_both<F: Files>(
    alloc: Global,
    followed: &FollowedFiles,
    files: &mut F,
) -> Result<(Vec<u8>, Vec<u8>), FollowFault>
    ensures answer { (refused : List Refusal) → let before : Loads = record { loaded = F.loaded files.old; failed = F.failed files.old; refused = refused } in
        let after : Loads = record { loaded = F.loaded files.new; failed = F.failed files.new; refused = refused } in
        MatchResult result (λ both. HoldBoth (F.holds files.old) followed.now both.0.items both.1.items × LoadsBoth followed.now before after)
        (λ fault. StopsFollow fault (F.holds files.old) followed.now before after) }
    ensures fault { IfErr result IsFileFault }
{
    let log = match load_file(alloc, files, followed.log_file.as_str()) {
        Ok(log) => log,
        Err(fault) => return Err(file_fault(fault, LOG_FILE)),
    };
    let order = match load_file(alloc, files, followed.order_file.as_str()) {
        Ok(order) => order,
        Err(fault) => return Err(file_fault(fault, ORDER_FILE)),
    };
    Ok((log, order))
}

// What is printed of a log and an order.
fn follow_texts(
    alloc: Global,
    log: &[u8],
    order: &[u8],
    version: u64,
) -> Result<String, FollowFault>
    ensures { MatchResult result (λ text. IsFollowed log.now order.now version (string_bytes text)) (RefusesTexts log.now order.now) }
{
    let records = match read_records(alloc, log) {
        Ok(records) => records,
        Err(RecordFault::BadLog(record)) => return Err(FollowFault::BadLog { record }),
        Err(RecordFault::Memory) => return Err(FollowFault::Memory),
    };
    let numbers = match read_order(alloc, records.len() as u64, order) {
        Ok(numbers) => numbers,
        Err(fault) => return Err(fault),
    };
    match follow_records(alloc, &records, numbers.as_slice(), version) {
        Ok(text) => Ok(text),
        Err(_) => Err(FollowFault::Memory),
    }
}

/// Feeds a new follower records of the log file, in the order of the order file, and prints each answer, the version that it has
/// come to, and the data graph of the version that is asked for. The log is loaded first, and both are loaded before they are read.
pub fn follow_files<F: Files>(
    alloc: Global,
    followed: &FollowedFiles,
    files: &mut F,
) -> Result<String, FollowFault>
    ensures { (refused : List Refusal) → let before : Loads = record { loaded = F.loaded files.old; failed = F.failed files.old; refused = refused } in
        let after : Loads = record { loaded = F.loaded files.new; failed = F.failed files.new; refused = refused } in
        MatchResult result (λ text. AreFollowed (F.holds files.old) followed.now before after (string_bytes text))
        (λ fault. StopsFollow fault (F.holds files.old) followed.now before after) }
{
    let (log, order) = match load_both(alloc, followed, files) {
        Ok(both) => both,
        Err(fault) => return Err(fault),
    };
    follow_texts(alloc, &log, &order, followed.version)
}
