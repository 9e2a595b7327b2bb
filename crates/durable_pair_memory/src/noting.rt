//! Calls on one disk of a pair in memory, each noted on the other too.

ghost use Rattle.std.specs.Prelude.{◌≡◌, ◌<◌, ◌≤◌, ◌↔◌, ◌+◌, ◌⊎◌, [], false, length, IsTrue, IfOk, OnOk, OnErr, IsErrOf};
ghost use Rattle.durable_model_writes.specs.Writes.{Lengthens};
ghost use Rattle.durable_model_writes.specs.declared.call.Call.TheVariants.{Tore};
ghost use Rattle.durable_model_writes.specs.History.{size_of};
ghost use Rattle.durable_model.specs.declared.error.DiskError.TheVariants.{Device};
ghost use Rattle.durable_model.specs.Honest.{Counts};
ghost use Rattle.durable_model.specs.Memory.{seen_by_memory, calls_made, bytes_noted, IsPastCapacity};
ghost use Rattle.durable_pair_memory.specs.InMemory.{Steps, NotesNothing, Moves, MustFailBeside};

use durable_model::{DiskError, MemoryDisk, failed};
use durable_model_writes::Call;
use std::alloc::{AllocError, Global};

/// Whether a call on a disk that writes so many bytes can be noted on it and on the other.
pub fn have_space(this: &MemoryDisk, other: &MemoryDisk, bytes: usize) -> bool
    ensures yes_calls { IsTrue result → calls_made this.now < this.now.call_capacity }
    ensures yes_bytes { IsTrue result → bytes_noted this.now + bytes ≤ this.now.byte_capacity }
    ensures yes_beside { IsTrue result → calls_made other.now < other.now.call_capacity }
    ensures yes_beside_bytes { IsTrue result → bytes_noted other.now ≤ other.now.byte_capacity }
    ensures no { result ≡ false → IsPastCapacity bytes this.now ⊎ IsPastCapacity 0 other.now }
{
    this.has_capacity(bytes) && other.has_capacity(0)
}

/// Notes a call that wrote nothing.
pub fn note_beside(this: &mut MemoryDisk, other: &mut MemoryDisk, call: Call)
    requires capacity { calls_made this.old < this.old.call_capacity }
    requires beside { calls_made other.old < other.old.call_capacity }
    requires nothing { size_of call ≡ 0 }
    ensures { Steps call [] this.old other.old this.new other.new }
{
    this.note_call(call);
    other.note_call(Call::Left);
}

/// Writes, and notes the write. Where it finds no memory nothing was written.
fn note_write_beside(
    this: &mut MemoryDisk,
    other: &mut MemoryDisk,
    at: usize,
    bytes: &[u8],
) -> Result<(), AllocError>
    requires calls { calls_made this.old < this.old.call_capacity }
    requires bytes { bytes_noted this.old + length bytes.now ≤ this.old.byte_capacity }
    requires beside { calls_made other.old < other.old.call_capacity }
    ensures done { OnOk result (Steps (Call.Wrote at (length bytes.now)) bytes.now this.old other.old this.new other.new) }
    ensures stays { OnErr result (NotesNothing this.old other.old this.new other.new) }
    ensures memory { OnErr result (Lengthens at (length bytes.now) (seen_by_memory this.old)) }
{
    this.note_write(at, bytes)?;
    other.note_call(Call::Left);
    Ok(())
}

/// Notes a sync.
fn note_sync_beside(this: &mut MemoryDisk, other: &mut MemoryDisk)
    requires capacity { calls_made this.old < this.old.call_capacity }
    requires beside { calls_made other.old < other.old.call_capacity }
    ensures steps { Steps Call.Synced [] this.old other.old this.new other.new }
{
    this.note_sync();
    other.note_call(Call::Left);
}

/// All the bytes of a disk.
pub fn read_one(
    alloc: Global,
    this: &mut MemoryDisk,
    other: &mut MemoryDisk,
    failures: &mut u64,
) -> Result<Vec<u8>, DiskError>
    ensures bytes { IfOk result (λ bytes. bytes.items ≡ seen_by_memory this.old) }
    ensures moves { Moves Call.Left [] this.old other.old this.new other.new }
    ensures failures { Counts result failures.old failures.new }
    ensures fails { IsErrOf result DiskError.Device ↔ MustFailBeside 0 this.old other.old }
{
    if !have_space(this, other, 0) {
        return Err(failed(failures));
    }
    if this.fails_now() {
        note_beside(this, other, Call::Left);
        return Err(failed(failures));
    }
    let bytes = Vec::from_slice(alloc, this.bytes())?;
    note_beside(this, other, Call::Left);
    Ok(bytes)
}

/// Writes over the bytes of a disk. A write that fails may tear its range.
pub fn write_one(
    this: &mut MemoryDisk,
    other: &mut MemoryDisk,
    failures: &mut u64,
    at: u64,
    bytes: &[u8],
) -> Result<(), DiskError>
    ensures done { OnOk result (Steps (Call.Wrote at (length bytes.now)) bytes.now this.old other.old this.new other.new) }
    ensures tore { IsErrOf result Device
        → Moves (Tore at (length bytes.now)) [] this.old other.old this.new other.new }
    ensures stays { IsErrOf result DiskError.NoMemory → NotesNothing this.old other.old this.new other.new }
    ensures memory { IsErrOf result DiskError.NoMemory → Lengthens at (length bytes.now) (seen_by_memory this.old) }
    ensures failures { Counts result failures.old failures.new }
    ensures fails { IsErrOf result DiskError.Device ↔ MustFailBeside (length bytes.now) this.old other.old }
{
    let at = at as usize;
    if !have_space(this, other, bytes.len()) {
        return Err(failed(failures));
    }
    if this.fails_now() {
        note_beside(this, other, Call::Tore(at, bytes.len()));
        return Err(failed(failures));
    }
    note_write_beside(this, other, at, bytes)?;
    Ok(())
}

/// Syncs a disk.
pub fn sync_one(
    this: &mut MemoryDisk,
    other: &mut MemoryDisk,
    failures: &mut u64,
) -> Result<(), DiskError>
    ensures done { OnOk result (Steps Call.Synced [] this.old other.old this.new other.new) }
    ensures moves { OnErr result (Moves Call.Left [] this.old other.old this.new other.new) }
    ensures memory { IsErrOf result DiskError.NoMemory → ⊥ }
    ensures failures { Counts result failures.old failures.new }
    ensures fails { IsErrOf result DiskError.Device ↔ MustFailBeside 0 this.old other.old }
{
    if !have_space(this, other, 0) {
        return Err(failed(failures));
    }
    if this.fails_now() {
        note_beside(this, other, Call::Left);
        return Err(failed(failures));
    }
    note_sync_beside(this, other);
    Ok(())
}
