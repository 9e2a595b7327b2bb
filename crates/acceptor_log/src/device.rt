//! Writes that are durable where they succeed.

ghost use Rattle.std.specs.Prelude.{◌≡◌, ◌<◌, ◌≤◌, ◌^◌, ◌↔◌, length, OnOk, IsErrOf};
ghost use Rattle.durable_model.specs.Writes.{overwritten};
ghost use Rattle.durable_model.specs.Honest.{Only, Risen};
ghost use Rattle.acceptor_log.specs.Calls.{LeavesWithOrWithout, PutsDown, Stays, StaysUnwritten, TearsOnly, WantsMemory};
ghost use Rattle.acceptor_log_writing.specs.Written.{with_block};

use durable_model::{Disk, DiskError};

/// Writes, and syncs what was written.
pub fn write_durably<D: Disk>(disk: &mut D, at: u64, bytes: &[u8]) -> Result<(), DiskError>
    ensures honest { D.is_honest disk.new ↔ D.is_honest disk.old }
    ensures any_moment { D.is_honest disk.old → TearsOnly D.Disk at (length bytes.now) disk.old disk.new }
    ensures written { D.is_honest disk.old
        → OnOk result (D.seen disk.new ≡ overwritten (D.seen disk.old) at bytes.now) }
    ensures durable { D.is_honest disk.old → OnOk result (Only (D.seen disk.new) (D.may_leave disk.new)) }
    ensures longer { D.is_honest disk.old → length (D.seen disk.old) ≤ length (D.seen disk.new) }
    ensures memory { D.is_honest disk.old
        → IsErrOf result DiskError.NoMemory → WantsMemory D.Disk at bytes.now disk.old }
    ensures unwritten { D.is_honest disk.old → IsErrOf result DiskError.NoMemory → Stays D.Disk disk.old disk.new }
    ensures later { D.faults disk.old ≤ D.faults disk.new }
    ensures failed { IsErrOf result DiskError.Device → Risen (D.faults disk.old) (D.faults disk.new) }
    ensures unfailed { (IsErrOf result DiskError.Device → ⊥) → D.faults disk.new ≡ D.faults disk.old }
{
    match disk.write_at(at, bytes) {
        Ok(()) => disk.sync(),
        Err(fault) => Err(fault),
    }
}

/// Writes blocks behind the closed gate that stands at `gate`, in one write, and then opens the gate.
pub fn put<D: Disk>(disk: &mut D, gate: u64, block: &[u8]) -> Result<(), DiskError>
    requires { gate < 2 ^ 32 }
    ensures honest { D.is_honest disk.new ↔ D.is_honest disk.old }
    ensures any_moment { LeavesWithOrWithout D.Disk gate block.now disk.old disk.new }
    ensures written { PutsDown D.Disk gate block.now disk.old disk.new result }
    ensures unwritten { StaysUnwritten D.Disk gate block.now disk.old disk.new result }
    ensures bytes { D.is_honest disk.old
        → OnOk result (D.seen disk.new ≡ with_block (D.seen disk.old) gate block.now) }
    ensures later { D.faults disk.old ≤ D.faults disk.new }
    ensures failed { IsErrOf result DiskError.Device → Risen (D.faults disk.old) (D.faults disk.new) }
    ensures unfailed { (IsErrOf result DiskError.Device → ⊥) → D.faults disk.new ≡ D.faults disk.old }
{
    match write_durably(disk, gate + 1, block) {
        Ok(()) => write_durably(disk, gate, &[1]),
        Err(fault) => Err(fault),
    }
}
