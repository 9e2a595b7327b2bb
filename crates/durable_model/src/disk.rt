//! The contract of an honest disk.

ghost use Rattle.std.specs.Prelude.{◌≡◌, ◌≤◌, ◌↔◌, ⊤, List, ℕ, [], length, IfOk, OnOk, OnErr, IsErrOf};
ghost use Rattle.durable_model.specs.declared.error.DiskError.TheVariants.{Device, NoMemory};
ghost use Rattle.durable_model_writes.specs.declared.call.Call.{Call};
ghost use Rattle.durable_model_writes.specs.declared.call.Call.TheVariants.{Wrote, Tore, Synced, Left};
ghost use Rattle.durable_model_writes.specs.Writes.{overwritten, Torn};
ghost use Rattle.durable_model.specs.Honest.{Only, NothingNew, Follows, Unchanged, Elapses, MayWantMemory, Counts};

use crate::error::DiskError;
use std::alloc::Global;

/// One file on a device that may fail, and on a machine that may crash. What a clause says of its bytes holds of an
/// honest disk: between two syncs each written range, and all past the old end, may hold any bytes after a crash, and
/// the other bytes stay; after a sync that succeeded a crash leaves what a read gives. That a disk is honest is a
/// premise, which no call changes.
pub trait Disk {
    /// The disk is honest.
    ghost is_honest: { Self → Type 0 };

    /// The bytes that a read gives.
    ghost seen: { Self → List ℕ };

    /// What a crash at this moment may leave.
    ghost may_leave: { Self → List ℕ → Type 0 };

    /// The moment, as a number that does not fall.
    ghost moment: { Self → ℕ };

    /// What a crash at some moment from that one on might have left, within a call or between two.
    ghost left_since: { Self → ℕ → List ℕ → Type 0 };

    /// How many calls have answered `Device`; it stays at 2^64 - 1.
    ghost faults: { Self → ℕ };

    /// What a call did, with the bytes that it wrote, where a disk gives this a meaning: so one that has a companion
    /// says of that too what each call leaves.
    ghost did: { Call → List ℕ → Self → Self → Type 0 } = { λ _ _ _ _. ⊤ };

    /// All the bytes.
    fn read(&mut self, alloc: Global) -> Result<Vec<u8>, DiskError>
        ensures honest { is_honest self.new ↔ is_honest self.old }
        ensures bytes { is_honest self.old → IfOk result (λ bytes. bytes.items ≡ seen self.old) }
        ensures unchanged { is_honest self.old → Unchanged seen may_leave self.old self.new }
        ensures time { is_honest self.old → Elapses moment left_since may_leave self.old self.new }
        ensures left { did Left [] self.old self.new }
        ensures failures { Counts result (faults self.old) (faults self.new) };

    /// Writes over the bytes from `at` on, and past the end, where zeros fill a gap. A write of no bytes does nothing.
    /// Where the device failed the range may hold any bytes.
    fn write_at(&mut self, at: u64, bytes: &[u8]) -> Result<(), DiskError>
        ensures honest { is_honest self.new ↔ is_honest self.old }
        ensures written { is_honest self.old → OnOk result (seen self.new ≡ overwritten (seen self.old) at bytes.now) }
        ensures others { is_honest self.old → Torn at (length bytes.now) (seen self.old) (seen self.new) }
        ensures crash { is_honest self.old
            → Follows (Torn at (length bytes.now)) (may_leave self.old) (may_leave self.new) }
        ensures time { is_honest self.old → Elapses moment left_since may_leave self.old self.new }
        // Only a write of more than one byte, or one that makes the disk longer, can be out of memory, and then
        // nothing was written.
        ensures memory { is_honest self.old
            → IsErrOf result NoMemory → MayWantMemory at (length bytes.now) (seen self.old) }
        ensures unwritten { is_honest self.old → IsErrOf result NoMemory → Unchanged seen may_leave self.old self.new }
        ensures done { OnOk result (did (Wrote at (length bytes.now)) bytes.now self.old self.new) }
        ensures tore { IsErrOf result Device → did (Tore at (length bytes.now)) [] self.old self.new }
        ensures left { IsErrOf result NoMemory → did Left [] self.old self.new }
        ensures failures { Counts result (faults self.old) (faults self.new) };

    /// After it, where it succeeds, a crash leaves what a read gives. It takes no memory.
    fn sync(&mut self) -> Result<(), DiskError>
        ensures honest { is_honest self.new ↔ is_honest self.old }
        ensures durable { is_honest self.old → OnOk result (Only (seen self.new) (may_leave self.new)) }
        ensures unchanged { is_honest self.old → Unchanged seen may_leave self.old self.new }
        ensures time { is_honest self.old → Elapses moment left_since may_leave self.old self.new }
        ensures memory { IsErrOf result NoMemory → ⊥ }
        ensures done { OnOk result (did Synced [] self.old self.new) }
        ensures left { OnErr result (did Left [] self.old self.new) }
        ensures failures { Counts result (faults self.old) (faults self.new) };

    /// How many calls have answered `Device`; it stays at 2^64 - 1.
    fn failures(&self) -> u64
        ensures { result ≡ faults self.now };

    /// What a read gives is one of the images that a crash now may leave.
    ghost left_as_seen: { (disk : Self) → is_honest disk → may_leave disk (seen disk) };

    /// This moment is one of those since an earlier one.
    ghost counts_now: { (disk : Self) (t : ℕ) (c : List ℕ) → is_honest disk → t ≤ moment disk → may_leave disk c
        → left_since disk t c };

    /// Since this moment there is no other.
    ghost only_now: { (disk : Self) (c : List ℕ) → is_honest disk → left_since disk (moment disk) c
        → may_leave disk c };
}
