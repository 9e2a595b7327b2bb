//! Making a journal, and opening one.

ghost use Rattle.std.specs.Prelude.{◌≡◌, ◌≢◌, ◌≤◌, ◌↔◌, [], length, OnOk, IfOk, IfErr};
ghost use Rattle.durable_model.specs.Honest.{Risen};
ghost use Rattle.acceptor_log_form.specs.Text.{header_size};
ghost use Rattle.acceptor_log.specs.Calls.{LeavesNothingNew, RestsOnListed, Stays};
ghost use Rattle.acceptor_log.specs.Rest.{Rests};
ghost use Rattle.acceptor_log.specs.Faults.{log_fault, HasCauseIn, UnlessDevice};
ghost use Rattle.acceptor_log_writing.specs.Written.{with_journal};

use crate::device::write_durably;
use acceptor_log_form::{Header, LogError, header_bytes};
use acceptor_log_reading::{Listed, read};
use durable_model::{Disk, DiskError};
use std::alloc::Global;

/// Writes the journal of no records, in one write, and syncs it.
pub fn lay<D: Disk>(alloc: Global, header: &Header, disk: &mut D) -> Result<(), LogError>
    ensures honest { D.is_honest disk.new ↔ D.is_honest disk.old }
    ensures rests { D.is_honest disk.old → OnOk result (Rests D.Disk header.now [] header_size disk.new) }
    ensures bytes { D.is_honest disk.old → OnOk result (D.seen disk.new ≡ with_journal header.now (D.seen disk.old)) }
    ensures unwritten { D.is_honest disk.old → IfErr result (UnlessDevice (Stays D.Disk disk.old disk.new)) }
    ensures faults { IfErr result (λ e. e ≢ LogError.Device → e ≡ LogError.NoMemory) }
    ensures failed { result ≡ Err LogError.Device → Risen (D.faults disk.old) (D.faults disk.new) }
    ensures unfailed { result ≢ Err LogError.Device → D.faults disk.new ≡ D.faults disk.old }
    ensures later { D.faults disk.old ≤ D.faults disk.new }
{
    let mut bytes = header_bytes(alloc, header)?;
    bytes.push(0)?;
    match write_durably(disk, 0, bytes.as_slice()) {
        Ok(()) => Ok(()),
        Err(fault) => Err(told(fault)),
    }
}

/// Syncs, so that what is read is durable, and reads the journal with this header.
pub fn load<D: Disk>(alloc: Global, header: &Header, disk: &mut D) -> Result<Listed, LogError>
    ensures honest { D.is_honest disk.new ↔ D.is_honest disk.old }
    ensures unchanged { D.is_honest disk.old → Stays D.Disk disk.old disk.new }
    ensures any_moment { D.is_honest disk.old → LeavesNothingNew D.Disk disk.old disk.new }
    ensures rests { D.is_honest disk.old → IfOk result (RestsOnListed D.Disk disk.new header.now) }
    ensures fewer { IfOk result (λ found. length found.records.items ≤ found.gate) }
    ensures refused { D.is_honest disk.old → IfErr result (HasCauseIn header.now (D.seen disk.old)) }
    ensures failed { result ≡ Err LogError.Device → Risen (D.faults disk.old) (D.faults disk.new) }
    ensures unfailed { result ≢ Err LogError.Device → D.faults disk.new ≡ D.faults disk.old }
    ensures later { D.faults disk.old ≤ D.faults disk.new }
{
    match disk.sync() {
        Ok(()) => {}
        Err(fault) => return Err(told(fault)),
    }
    match disk.read(alloc) {
        Ok(bytes) => read(alloc, header, bytes.as_slice()),
        Err(fault) => Err(told(fault)),
    }
}

/// What a failed call of the disk is told as.
fn told(fault: DiskError) -> LogError
    ensures { result ≡ log_fault fault }
{
    match fault {
        DiskError::Device => LogError::Device,
        DiskError::NoMemory => LogError::NoMemory,
    }
}
