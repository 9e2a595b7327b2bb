//! The old disk of a pair.

ghost use Rattle.std.specs.Prelude.{◌≡◌, ◌≢◌, ◌≤◌, ◌↔◌, Err, IfOk, IfErr, OnOk};
ghost use Rattle.durable_model.specs.Honest.{Only, Risen};
ghost use Rattle.acceptor_log.specs.Faults.{log_fault};
ghost use Rattle.farm_nodes_open_old.specs.OnPairs.{IsOldDisk, IsSame, LeavesBoth, LeavesOld};

use acceptor_log_form::LogError;
use durable_model::DiskError;
use durable_pair::Pair;
use std::alloc::Global;

/// What stands on an old disk: a journal that counts, nothing, or bytes that count no more.
#[derive(Clone, Copy, Debug, PartialEq, Eq)]
pub enum OldDisk {
    Counts,
    Empty,
    Spent,
}

/// What stands on the old disk. It is synced before it is read, so a crash leaves no other bytes of it afterwards; where it
/// does not count the pair is honest as a disk from then on.
pub fn old_disk<P: Pair>(alloc: Global, pair: &mut P) -> Result<OldDisk, LogError>
    ensures whole { P.is_whole pair.new ↔ P.is_whole pair.old }
    ensures told { P.is_whole pair.old → IfOk result (IsOldDisk (P.old_seen pair.old)) }
    ensures same { P.is_whole pair.old → IsSame P.Disk P.Pair.own pair.old pair.new }
    ensures synced { P.is_whole pair.old → OnOk result (Only (P.old_seen pair.old) (P.old_may pair.new)) }
    ensures honest { P.is_whole pair.old → IfOk result (λ found. found ≢ OldDisk.Counts → P.is_honest pair.new) }
    ensures any_moment { P.is_whole pair.old → LeavesBoth P.Disk P.Pair.own pair.old pair.new }
    ensures faults { IfErr result (λ e. e ≢ LogError.Device → e ≡ LogError.NoMemory) }
    ensures failed { result ≡ Err LogError.Device → Risen (P.faults pair.old) (P.faults pair.new) }
    ensures unfailed { result ≢ Err LogError.Device → P.faults pair.new ≡ P.faults pair.old }
    ensures later { P.faults pair.old ≤ P.faults pair.new }
{
    match pair.sync_old() {
        Ok(()) => look_at_old(alloc, pair),
        Err(fault) => Err(told(fault)),
    }
}

/// Reads the old disk.
fn look_at_old<P: Pair>(alloc: Global, pair: &mut P) -> Result<OldDisk, LogError>
    ensures whole { P.is_whole pair.new ↔ P.is_whole pair.old }
    ensures told { P.is_whole pair.old → IfOk result (IsOldDisk (P.old_seen pair.old)) }
    ensures left { P.is_whole pair.old → LeavesOld P.Disk P.Pair.own pair.old pair.new }
    ensures faults { IfErr result (λ e. e ≢ LogError.Device → e ≡ LogError.NoMemory) }
    ensures failed { result ≡ Err LogError.Device → Risen (P.faults pair.old) (P.faults pair.new) }
    ensures unfailed { result ≢ Err LogError.Device → P.faults pair.new ≡ P.faults pair.old }
    ensures later { P.faults pair.old ≤ P.faults pair.new }
{
    match pair.read_old(alloc) {
        Ok(bytes) => Ok(kind_of(bytes.as_slice())),
        Err(fault) => Err(told(fault)),
    }
}

/// What the bytes of an old disk are. A journal begins with a `C`.
fn kind_of(bytes: &[u8]) -> OldDisk
    ensures { IsOldDisk bytes.now result }
{
    match bytes {
        [] => OldDisk::Empty,
        [first, _rest @ ..] => {
            if *first == b'C' {
                OldDisk::Counts
            } else {
                OldDisk::Spent
            }
        }
    }
}

/// What a failed call of the disk is told as.
fn told(fault: DiskError) -> LogError
    ensures { result ≡ log_fault fault }
{
    match fault {
        DiskError::Device => LogError::Device,
        DiskError::NoMemory => LogError::NoMemory,
    }
}
