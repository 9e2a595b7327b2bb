ghost use Rattle.std.specs.Prelude.{◌≡◌, ◌≢◌, ◌≤◌, ◌↔◌, [], length, Err, IfOk, IfErr, MatchBool};
ghost use Rattle.durable_model.specs.Honest.{Elapses, Risen, Unchanged};
ghost use Rattle.acceptor_log.specs.Faults.{log_fault};

use acceptor_log_form::LogError;
use durable_model::{Disk, DiskError};
use std::alloc::Global;

/// Whether the disk has no bytes.
pub(crate) fn is_empty<D: Disk>(alloc: Global, disk: &mut D) -> Result<bool, LogError>
    ensures honest { D.is_honest disk.new ↔ D.is_honest disk.old }
    ensures told { D.is_honest disk.old → IfOk result (λ b. MatchBool b (D.seen disk.old ≡ []) (D.seen disk.old ≢ [])) }
    ensures unchanged { D.is_honest disk.old → Unchanged D.seen D.may_leave disk.old disk.new }
    ensures time { D.is_honest disk.old → Elapses D.moment D.left_since D.may_leave disk.old disk.new }
    ensures faults { IfErr result (λ e. e ≢ LogError.Device → e ≡ LogError.NoMemory) }
    ensures failed { result ≡ Err LogError.Device → Risen (D.faults disk.old) (D.faults disk.new) }
    ensures unfailed { result ≢ Err LogError.Device → D.faults disk.new ≡ D.faults disk.old }
    ensures later { D.faults disk.old ≤ D.faults disk.new }
{
    match disk.read(alloc) {
        Ok(bytes) => Ok(bytes.as_slice().is_empty()),
        Err(DiskError::Device) => Err(LogError::Device),
        Err(DiskError::NoMemory) => Err(LogError::NoMemory),
    }
}
