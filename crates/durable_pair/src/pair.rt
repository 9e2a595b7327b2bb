//! The contract of a pair of disks.

ghost use Rattle.std.specs.Prelude.{◌≡◌, ◌≤◌, ◌↔◌, ℕ, List, [], length, IfOk, IsErrOf};
ghost use Rattle.durable_model_writes.specs.declared.call.Call.{Call};
ghost use Rattle.durable_model_writes.specs.declared.call.Call.TheVariants.{Left};
ghost use Rattle.durable_model.specs.declared.error.DiskError.TheVariants.{NoMemory};
ghost use Rattle.durable_model.specs.Honest.{MayWantMemory, Counts};
ghost use Rattle.durable_pair.specs.Images.{Images, IsSpent, Shows, Both};
ghost use Rattle.durable_pair.specs.Does.{Does, DoesOld, LeavesOld, SparesOld, SyncsOld, TearsOld, WritesOld};

use durable_model::{Disk, DiskError};
use std::alloc::Global;

/// Two disks on one machine, so that one crash leaves an image of each. The calls of [`Disk`] are those of the new one, and
/// its failures are counted with those of the old one. As a disk the pair is honest only while the old one counts no more,
/// that is while each image that a crash may leave of it is spent; what holds before that is said of both.
pub trait Pair: Disk {
    /// Both disks are honest.
    ghost is_whole: { Self → Type 0 };

    /// What a crash now may leave of the new disk, whatever the old one holds.
    ghost new_may: { Self → List ℕ → Type 0 };

    /// What a read of the old disk gives.
    ghost old_seen: { Self → List ℕ };

    /// What a crash now may leave of the old disk.
    ghost old_may: { Self → List ℕ → Type 0 };

    /// What a crash at one moment from that one on might have left of both.
    ghost both_since: { Self → ℕ → Images → Type 0 };

    /// The bytes that a read of the new disk gives, lent: no device is asked for them, and they take no memory.
    fn lent(&self) -> &[u8]
        ensures { is_whole self.now → result.now ≡ Self.seen self.now };

    /// The bytes that a read of the old disk gives, lent.
    fn lent_old(&self) -> &[u8]
        ensures { is_whole self.now → result.now ≡ old_seen self.now };

    /// All the bytes of the old disk.
    fn read_old(&mut self, alloc: Global) -> Result<Vec<u8>, DiskError>
        ensures whole { is_whole self.new ↔ is_whole self.old }
        ensures bytes { is_whole self.old → IfOk result (λ bytes. bytes.items ≡ old_seen self.old) }
        ensures left { is_whole self.old
            → DoesOld Self.Disk both_since new_may old_may old_seen Left [] self.old self.new }
        ensures failures { Counts result (Self.faults self.old) (Self.faults self.new) };

    /// Writes over the bytes of the old disk, as [`Disk::write_at`] does over those of the new one.
    fn write_old_at(&mut self, at: u64, bytes: &[u8]) -> Result<(), DiskError>
        ensures whole { is_whole self.new ↔ is_whole self.old }
        ensures done { WritesOld Self.Disk both_since new_may old_may old_seen is_whole at bytes.now result
            self.old self.new }
        ensures tore { TearsOld Self.Disk both_since new_may old_may old_seen is_whole at bytes.now result
            self.old self.new }
        ensures left { SparesOld Self.Disk both_since new_may old_may old_seen is_whole result self.old self.new }
        ensures memory { is_whole self.old
            → IsErrOf result NoMemory → MayWantMemory at (length bytes.now) (old_seen self.old) }
        ensures failures { Counts result (Self.faults self.old) (Self.faults self.new) };

    /// Syncs the old disk, as [`Disk::sync`] does the new one.
    fn sync_old(&mut self) -> Result<(), DiskError>
        ensures whole { is_whole self.new ↔ is_whole self.old }
        ensures done { SyncsOld Self.Disk both_since new_may old_may old_seen is_whole result self.old self.new }
        ensures left { LeavesOld Self.Disk both_since new_may old_may old_seen is_whole result self.old self.new }
        ensures memory { IsErrOf result NoMemory → ⊥ }
        ensures failures { Counts result (Self.faults self.old) (Self.faults self.new) };

    /// A call on the new disk does what it says to that disk, and nothing to the old one.
    ghost means: { (call : Call) (bytes : List ℕ) (p q : Self) → is_whole p → Self.did call bytes p q
        → Does Self.moment both_since (Both new_may old_may) Self.seen new_may old_seen old_may call bytes p q };

    /// That both disks are honest no call changes.
    ghost stays_whole: { (call : Call) (bytes : List ℕ) (p q : Self) → Self.did call bytes p q
        → (is_whole q ↔ is_whole p) };

    /// It is honest as a disk once the old one counts no more.
    ghost becomes: { (p : Self) → is_whole p → ((d : List ℕ) → old_may p d → IsSpent d) → Self.is_honest p };

    /// And only then.
    ghost honest_whole: { (p : Self) → Self.is_honest p → is_whole p };

    ghost honest_spent: { (p : Self) (d : List ℕ) → Self.is_honest p → old_may p d → IsSpent d };

    /// What a crash leaves of it as a disk is what the images of both show.
    ghost shown: { (p : Self) (t : ℕ) (im : Images) (c : List ℕ) → both_since p t im → Shows im c
        → Self.left_since p t c };

    ghost of_both: { (p : Self) (t : ℕ) (c : List ℕ) → Self.left_since p t c
        → (im : Images) × both_since p t im × Shows im c };

    /// While it is honest that is what the new disk leaves.
    ghost only_new: { (p : Self) (c : List ℕ) → Self.is_honest p → Self.may_leave p c → new_may p c };

    ghost new_is_left: { (p : Self) (c : List ℕ) → Self.is_honest p → new_may p c → Self.may_leave p c };

    /// What reads give is one of the images that a crash now may leave.
    ghost both_as_seen: { (p : Self) → is_whole p → Both new_may old_may p (Self.seen p, old_seen p) };

    /// This moment is one of those since an earlier one.
    ghost both_now: { (p : Self) (t : ℕ) (im : Images) → is_whole p → t ≤ Self.moment p → Both new_may old_may p im
        → both_since p t im };

    /// Since this moment there is no other.
    ghost both_only: { (p : Self) (im : Images) → is_whole p → both_since p (Self.moment p) im
        → Both new_may old_may p im };
}
