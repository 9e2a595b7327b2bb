//! The turn from an old disk to a new one: the new text is durable before the old one is spent.

ghost use Rattle.std.specs.Prelude.{◌≡◌, ◌<◌, ◌≤◌, ◌↔◌, ℕ, List, length, OnOk, IsErrOf};
ghost use Rattle.durable_model_writes.specs.Writes.{overwritten};
ghost use Rattle.durable_model.specs.Honest.{Only, Risen};
ghost use Rattle.acceptor_log_migrating.specs.Turning.{spent, KeepsNew, KeepsOld, LeavesOnlyOld, SpendsOnly, TurnsOnly};

use durable_model::DiskError;
use durable_pair::Pair;

/// Puts a text down at the front of the new disk, and syncs it.
pub fn lay_new<P: Pair>(pair: &mut P, text: &[u8]) -> Result<(), DiskError>
    ensures whole { P.is_whole pair.new ↔ P.is_whole pair.old }
    ensures any_moment { P.is_whole pair.old → LeavesOnlyOld P.Disk P.Pair.own pair.old pair.new }
    ensures beside { P.is_whole pair.old → P.old_seen pair.new ≡ P.old_seen pair.old }
    ensures beside_left { P.is_whole pair.old → (d : List ℕ) → P.old_may pair.new d ↔ P.old_may pair.old d }
    ensures written { P.is_whole pair.old
        → OnOk result (P.seen pair.new ≡ overwritten (P.seen pair.old) 0 text.now) }
    ensures durable { P.is_whole pair.old → OnOk result (Only (P.seen pair.new) (P.new_may pair.new)) }
    ensures unwritten { P.is_whole pair.old → IsErrOf result DiskError.NoMemory → P.seen pair.new ≡ P.seen pair.old }
    ensures later { P.faults pair.old ≤ P.faults pair.new }
    ensures failed { IsErrOf result DiskError.Device → Risen (P.faults pair.old) (P.faults pair.new) }
    ensures unfailed { (IsErrOf result DiskError.Device → ⊥) → P.faults pair.new ≡ P.faults pair.old }
{
    match pair.write_at(0, text) {
        Ok(()) => pair.sync(),
        Err(fault) => Err(fault),
    }
}

/// Sets the first byte of the old disk to 0, so that it counts no more, and syncs it.
pub fn spend_old<P: Pair>(pair: &mut P) -> Result<(), DiskError>
    ensures whole { P.is_whole pair.new ↔ P.is_whole pair.old }
    ensures any_moment { P.is_whole pair.old → SpendsOnly P.Disk P.Pair.own pair.old pair.new }
    ensures beside { P.is_whole pair.old → P.seen pair.new ≡ P.seen pair.old }
    ensures beside_left { P.is_whole pair.old → (c : List ℕ) → P.new_may pair.new c ↔ P.new_may pair.old c }
    ensures written { P.is_whole pair.old → OnOk result (P.old_seen pair.new ≡ spent (P.old_seen pair.old)) }
    ensures durable { P.is_whole pair.old → OnOk result (Only (P.old_seen pair.new) (P.old_may pair.new)) }
    ensures memory { P.is_whole pair.old → 0 < length (P.old_seen pair.old) → IsErrOf result DiskError.NoMemory → ⊥ }
    ensures later { P.faults pair.old ≤ P.faults pair.new }
    ensures failed { IsErrOf result DiskError.Device → Risen (P.faults pair.old) (P.faults pair.new) }
    ensures unfailed { (IsErrOf result DiskError.Device → ⊥) → P.faults pair.new ≡ P.faults pair.old }
{
    match pair.write_old_at(0, &[0]) {
        Ok(()) => pair.sync_old(),
        Err(fault) => Err(fault),
    }
}

/// Turns from the old disk, which is synced and begins with a `C`, to this text on the new one. A crash at any moment
/// leaves the old disk as it was, or one that counts no more, and then the text is there.
pub fn turn<P: Pair>(pair: &mut P, text: &[u8]) -> Result<(), DiskError>
    ensures whole { P.is_whole pair.new ↔ P.is_whole pair.old }
    ensures any_moment { P.is_whole pair.old → TurnsOnly P.Disk P.Pair.own text.now pair.old pair.new }
    ensures honest { P.is_whole pair.old → OnOk result (P.is_honest pair.new) }
    ensures written { P.is_whole pair.old
        → OnOk result (P.seen pair.new ≡ overwritten (P.seen pair.old) 0 text.now) }
    ensures durable { P.is_whole pair.old → OnOk result (Only (P.seen pair.new) (P.may_leave pair.new)) }
    ensures turned { P.is_whole pair.old → OnOk result (P.old_seen pair.new ≡ spent (P.old_seen pair.old)) }
    // It is out of memory before it has written anything.
    ensures unwritten { P.is_whole pair.old → KeepsNew P.Disk P.Pair.own result pair.old pair.new }
    ensures unwritten_old { P.is_whole pair.old → KeepsOld P.Disk P.Pair.own result pair.old pair.new }
    ensures later { P.faults pair.old ≤ P.faults pair.new }
    ensures failed { IsErrOf result DiskError.Device → Risen (P.faults pair.old) (P.faults pair.new) }
    ensures unfailed { (IsErrOf result DiskError.Device → ⊥) → P.faults pair.new ≡ P.faults pair.old }
{
    match lay_new(pair, text) {
        Ok(()) => spend_old(pair),
        Err(fault) => Err(fault),
    }
}
