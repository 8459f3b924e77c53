// A disk as a trait: what each call reads, writes and keeps, and which moments it adds.
ghost use Rattle.std.specs.Prelude.{◌≡◌, ◌≤◌, ◌<◌, ◌+◌, ◌^◌, ◌∷◌, [], ℕ, List, Option, OnOk, IfOk, MatchResult, length, take, drop, ◌⊎◌};
ghost use Rattle.disk.specs.Crashes.{History, IsTorn, written, synced, overwritten};
ghost use Rattle.disk.specs.Faults.{Chooses, Counts, CountsFailed};

use std::alloc::{AllocError, Global};

/// The disk refused a call or couldn't finish it.
#[derive(Clone, Copy, Debug, PartialEq, Eq)]
pub struct Failed;

/// Why a call that takes memory gave nothing.
#[derive(Clone, Copy, Debug, PartialEq, Eq)]
pub enum DiskFault {
    /// The disk refused it or couldn't finish it.
    Failed,
    /// Memory ran out.
    Memory,
}

impl From<AllocError> for DiskFault {
    ghost use Rattle.disk.specs.declared.device.DiskFault.TheVariants.{Memory};

    ghost from_gives = { λ _ fault. fault ≡ Memory };

    fn from(_: AllocError) -> DiskFault {
        DiskFault::Memory
    }
}

impl From<Failed> for DiskFault {
    ghost use Rattle.disk.specs.declared.device.DiskFault.TheVariants as faults;

    ghost from_gives = { λ _ fault. fault ≡ faults.Failed };

    fn from(_: Failed) -> DiskFault {
        DiskFault::Failed
    }
}

/// Bytes that outlive the program, up to what a crash may tear.
///
/// A disk counts its faults, and each call that answers `Failed` is counted: where a caller blames the
/// disk, the count rose.
pub trait Disk {
    /// Holds of a disk that tells its bytes and its moments.
    ghost tells: { Type 0 };

    /// What a read gives, where it is told.
    ghost bytes: { Self → List ℕ };

    /// The moments so far, where they are told. None is ever lost.
    ghost history: { Self → History };

    /// The name by which it was chosen.
    ghost chosen: { Self → Option (List ℕ) };

    /// How many faults it had. It never falls.
    ghost faults: { Self → ℕ };

    /// Chooses what lies on the disk under this name, before all other calls. The disk keeps the name
    /// after a fault too, unless memory for it ran out.
    fn choose(&mut self, alloc: Global, name: &str) -> Result<(), DiskFault>
        ensures chosen { Chooses result (chosen self.old) name.now (chosen self.new) }
        ensures bytes { tells → bytes self.new ≡ bytes self.old }
        ensures history { tells → history self.new ≡ history self.old }
        ensures faults { CountsFailed result (faults self.old) (faults self.new) };

    /// How many bytes there are, fewer than 2^63.
    fn len(&mut self) -> Result<u64, Failed>
        ensures len { tells → IfOk result (λ n. n ≡ length (bytes self.old)) }
        ensures bound { IfOk result (λ n. n < 2 ^ 63) }
        ensures bytes { tells → bytes self.new ≡ bytes self.old }
        ensures history { tells → history self.new ≡ history self.old }
        ensures chosen { chosen self.new ≡ chosen self.old }
        ensures faults { Counts result (faults self.old) (faults self.new) };

    /// The `n` bytes from the place `at` on.
    fn read(&mut self, alloc: Global, at: u64, n: usize) -> Result<Vec<u8>, DiskFault>
        requires { tells → at + n ≤ length (bytes self.old) }
        ensures read { tells → IfOk result (λ v. v.items ≡ take n (drop at (bytes self.old))) }
        ensures bound { IfOk result (λ v. length v.items ≤ n) }
        ensures bytes { tells → bytes self.new ≡ bytes self.old }
        ensures history { tells → history self.new ≡ history self.old }
        ensures chosen { chosen self.new ≡ chosen self.old }
        ensures faults { CountsFailed result (faults self.old) (faults self.new) };

    /// Writes a piece over what is there from the place `at` on, and past its end. Until the next sync
    /// a crash may leave any bytes in its range; so may a fault. A piece that would end at 2^63 or
    /// beyond is a fault.
    fn write_at(&mut self, at: u64, piece: &[u8]) -> Result<(), Failed>
        requires { tells → at ≤ length (bytes self.old) }
        ensures written { tells → MatchResult result
            (λ _. bytes self.new ≡ overwritten (bytes self.old) at piece.now)
            (λ _. IsTorn (bytes self.old) ((at, length piece.now) ∷ []) (bytes self.new)) }
        ensures history { tells → MatchResult result
            (λ _. history self.new ≡ written at (length piece.now) (history self.old))
            (λ _. (history self.new ≡ history self.old)
            ⊎ (history self.new ≡ written at (length piece.now) (history self.old))) }
        ensures bound { OnOk result (at + length piece.now < 2 ^ 63) }
        ensures chosen { chosen self.new ≡ chosen self.old }
        ensures faults { Counts result (faults self.old) (faults self.new) };

    /// Waits until all that was written is durable: after it a crash leaves just what a read gives.
    fn sync(&mut self) -> Result<(), Failed>
        ensures bytes { tells → bytes self.new ≡ bytes self.old }
        ensures history { tells → MatchResult result
            (λ _. history self.new ≡ synced (bytes self.old) (history self.old))
            (λ _. history self.new ≡ history self.old) }
        ensures chosen { chosen self.new ≡ chosen self.old }
        ensures faults { Counts result (faults self.old) (faults self.new) };
}
