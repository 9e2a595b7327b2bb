//! A pair of disks in memory, which can fail, crash and tear writes.

ghost use Rattle.std.specs.Prelude.{◌≡◌, ◌≤◌, length};
ghost use Rattle.durable_model.specs.Memory.{history};

use crate::noting::{read_one, sync_one, write_one};
use durable_model::{Disk, DiskError, MemoryDisk};
use durable_model_writes::Call;
use durable_pair::Pair;
use lang_base::NoMemory;
use rand_pcg::Pcg32;
use std::alloc::Global;

/// An honest pair of disks in memory. Each call is noted on both disks, so that what a crash at any past moment might have
/// left of both is known. As one disk it is honest while the old one counts no more.
#[derive(Drop)]
pub struct MemoryPair {
    /// The new disk.
    fresh: MemoryDisk,
    /// The old one.
    former: MemoryDisk,
    failures: u64,
    ghost lockstep: { length (history fresh) ≡ length (history former) },
}

impl MemoryPair {
    ghost use Rattle.std.specs.Prelude.{◌≡◌, ◌↔◌, [], length, IfOk, OnOk, OnErr, IsErrOf};
    ghost use Rattle.durable_model_writes.specs.Writes.{overwritten, Lengthens, Torn};
    ghost use Rattle.durable_model.specs.Honest.{Only, Follows, Unchanged, Elapses, Counts};
    ghost use Rattle.durable_pair_memory.specs.InMemory.{seen_new, seen_old, may_leave_new, may_leave_both, pair_moment, shown_since, may_show, pair_faults, OldIsSpent, DoesNew, DoesOld, AreSettled, CanNote, NeitherFails, MustFailBeside};
    ghost use Rattle.durable_model.specs.Memory.{told_to_fail, told_to_stop};

    /// Two empty disks, each of which can note so many calls, and so many bytes in its writes. A call past that is a
    /// failure of the device; a call on either is noted on both.
    pub fn new(alloc: Global, calls: usize, bytes: usize) -> Result<MemoryPair, NoMemory>
        ensures empty { IfOk result (λ pair. seen_new pair ≡ []) }
        ensures empty_old { IfOk result (λ pair. seen_old pair ≡ []) }
        ensures settled { IfOk result AreSettled }
        ensures capacity { IfOk result (CanNote calls bytes) }
        ensures none_fails { IfOk result NeitherFails }
        ensures whole { IfOk result (λ pair. pair_faults pair ≡ 0) }
    {
        MemoryPair::holding(alloc, Vec::new(alloc), Vec::new(alloc), calls, bytes)
    }

    /// Disks that hold these bytes, all of them synced.
    pub fn holding(
        alloc: Global,
        content: Vec<u8>,
        old_content: Vec<u8>,
        calls: usize,
        bytes: usize,
    ) -> Result<MemoryPair, NoMemory>
        ensures seen { IfOk result (λ pair. seen_new pair ≡ content.items) }
        ensures seen_old { IfOk result (λ pair. seen_old pair ≡ old_content.items) }
        ensures settled { IfOk result AreSettled }
        ensures capacity { IfOk result (CanNote calls bytes) }
        ensures none_fails { IfOk result NeitherFails }
        ensures whole { IfOk result (λ pair. pair_faults pair ≡ 0) }
    {
        let fresh = MemoryDisk::holding(alloc, content, calls, bytes)?;
        let former = MemoryDisk::holding(alloc, old_content, calls, bytes)?;
        Ok(MemoryPair {
            fresh,
            former,
            failures: 0,
        })
    }

    /// Lets its nth call fail, on either disk, counted from the first after it was made; there is no call 0. A write
    /// that fails so may tear its range.
    pub fn fail_at(&mut self, n: usize)
        ensures fresh { self.new.fresh ≡ told_to_fail self.old.fresh n }
        ensures former { self.new.former ≡ told_to_fail self.old.former n }
        ensures failures { self.new.failures ≡ self.old.failures }
    {
        self.fresh.fail_at(n);
        self.former.fail_at(n);
    }

    /// Lets its device stop: from its nth call on, on either disk, each fails; 0 lets none fail so.
    pub fn stop_from(&mut self, n: usize)
        ensures fresh { self.new.fresh ≡ told_to_stop self.old.fresh n }
        ensures former { self.new.former ≡ told_to_stop self.old.former n }
        ensures failures { self.new.failures ≡ self.old.failures }
    {
        self.fresh.stop_from(n);
        self.former.stop_from(n);
    }

    /// A pair that a crash now may leave, with as much capacity anew, with no call that is to fail, and which does not
    /// stop.
    pub fn crash(&self, alloc: Global, draws: &mut Pcg32) -> Result<MemoryPair, NoMemory>
        ensures images { IfOk result (λ pair. may_leave_both self.now (seen_new pair, seen_old pair)) }
        ensures settled { IfOk result AreSettled }
        ensures none_fails { IfOk result NeitherFails }
        ensures whole { IfOk result (λ pair. pair_faults pair ≡ 0) }
    {
        let fresh = self.fresh.crash(alloc, draws)?;
        let former = self.former.crash(alloc, draws)?;
        Ok(MemoryPair {
            fresh,
            former,
            failures: 0,
        })
    }

    fn read_new(&mut self, alloc: Global) -> Result<Vec<u8>, DiskError>
        ensures bytes { IfOk result (λ bytes. bytes.items ≡ seen_new self.old) }
        ensures does { DoesNew Call.Left [] self.old self.new }
        ensures honest { OldIsSpent self.new ↔ OldIsSpent self.old }
        ensures unchanged { Unchanged seen_new may_show self.old self.new }
        ensures time { Elapses pair_moment shown_since may_show self.old self.new }
        ensures failures { Counts result (pair_faults self.old) (pair_faults self.new) }
        ensures fails { IsErrOf result DiskError.Device ↔ MustFailBeside 0 self.old.fresh self.old.former }
    {
        read_one(alloc, &mut self.fresh, &mut self.former, &mut self.failures)
    }

    fn write_new(&mut self, at: u64, bytes: &[u8]) -> Result<(), DiskError>
        ensures done { OnOk result (DoesNew (Call.Wrote at (length bytes.now)) bytes.now self.old self.new) }
        ensures tore { IsErrOf result DiskError.Device
            → DoesNew (Call.Tore at (length bytes.now)) [] self.old self.new }
        ensures left { IsErrOf result DiskError.NoMemory → DoesNew Call.Left [] self.old self.new }
        ensures honest { OldIsSpent self.new ↔ OldIsSpent self.old }
        ensures written { OnOk result (seen_new self.new ≡ overwritten (seen_new self.old) at bytes.now) }
        ensures others { Torn at (length bytes.now) (seen_new self.old) (seen_new self.new) }
        ensures crash { OldIsSpent self.old
            → Follows (Torn at (length bytes.now)) (may_show self.old) (may_show self.new) }
        ensures time { Elapses pair_moment shown_since may_show self.old self.new }
        ensures memory { IsErrOf result DiskError.NoMemory → Lengthens at (length bytes.now) (seen_new self.old) }
        ensures unwritten { IsErrOf result DiskError.NoMemory → Unchanged seen_new may_show self.old self.new }
        ensures failures { Counts result (pair_faults self.old) (pair_faults self.new) }
        ensures fails { IsErrOf result DiskError.Device
            ↔ MustFailBeside (length bytes.now) self.old.fresh self.old.former }
    {
        write_one(
            &mut self.fresh,
            &mut self.former,
            &mut self.failures,
            at,
            bytes,
        )
    }

    fn sync_new(&mut self) -> Result<(), DiskError>
        ensures done { OnOk result (DoesNew Call.Synced [] self.old self.new) }
        ensures left { OnErr result (DoesNew Call.Left [] self.old self.new) }
        ensures honest { OldIsSpent self.new ↔ OldIsSpent self.old }
        ensures durable { OldIsSpent self.old → OnOk result (Only (seen_new self.new) (may_show self.new)) }
        ensures unchanged { Unchanged seen_new may_show self.old self.new }
        ensures time { Elapses pair_moment shown_since may_show self.old self.new }
        ensures memory { IsErrOf result DiskError.NoMemory → ⊥ }
        ensures failures { Counts result (pair_faults self.old) (pair_faults self.new) }
        ensures fails { IsErrOf result DiskError.Device ↔ MustFailBeside 0 self.old.fresh self.old.former }
    {
        sync_one(&mut self.fresh, &mut self.former, &mut self.failures)
    }

    fn read_former(&mut self, alloc: Global) -> Result<Vec<u8>, DiskError>
        ensures bytes { IfOk result (λ bytes. bytes.items ≡ seen_old self.old) }
        ensures left { DoesOld Call.Left [] self.old self.new }
        ensures failures { Counts result (pair_faults self.old) (pair_faults self.new) }
        ensures fails { IsErrOf result DiskError.Device ↔ MustFailBeside 0 self.old.former self.old.fresh }
    {
        read_one(alloc, &mut self.former, &mut self.fresh, &mut self.failures)
    }

    fn write_former(&mut self, at: u64, bytes: &[u8]) -> Result<(), DiskError>
        ensures done { OnOk result (DoesOld (Call.Wrote at (length bytes.now)) bytes.now self.old self.new) }
        ensures tore { IsErrOf result DiskError.Device
            → DoesOld (Call.Tore at (length bytes.now)) [] self.old self.new }
        ensures left { IsErrOf result DiskError.NoMemory → DoesOld Call.Left [] self.old self.new }
        ensures memory { IsErrOf result DiskError.NoMemory → Lengthens at (length bytes.now) (seen_old self.old) }
        ensures failures { Counts result (pair_faults self.old) (pair_faults self.new) }
        ensures fails { IsErrOf result DiskError.Device
            ↔ MustFailBeside (length bytes.now) self.old.former self.old.fresh }
    {
        write_one(
            &mut self.former,
            &mut self.fresh,
            &mut self.failures,
            at,
            bytes,
        )
    }

    fn sync_former(&mut self) -> Result<(), DiskError>
        ensures done { OnOk result (DoesOld Call.Synced [] self.old self.new) }
        ensures left { OnErr result (DoesOld Call.Left [] self.old self.new) }
        ensures memory { IsErrOf result DiskError.NoMemory → ⊥ }
        ensures failures { Counts result (pair_faults self.old) (pair_faults self.new) }
        ensures fails { IsErrOf result DiskError.Device ↔ MustFailBeside 0 self.old.former self.old.fresh }
    {
        sync_one(&mut self.former, &mut self.fresh, &mut self.failures)
    }
}

/// What reads give, lent.
impl MemoryPair {
    ghost use Rattle.std.specs.Prelude.{◌≡◌};
    ghost use Rattle.durable_pair_memory.specs.InMemory.{seen_new, seen_old};

    /// What a read of the new disk gives.
    pub fn bytes(&self) -> &[u8]
        ensures { result.now ≡ seen_new self.now }
    {
        self.fresh.bytes()
    }

    /// What a read of the old disk gives.
    pub fn old_bytes(&self) -> &[u8]
        ensures { result.now ≡ seen_old self.now }
    {
        self.former.bytes()
    }
}

impl Disk for MemoryPair {
    ghost use Rattle.std.specs.Prelude.{◌≡◌, ◌↔◌, [], length, IfOk, OnOk, OnErr, IsErrOf};
    ghost use Rattle.durable_model_writes.specs.Writes.{overwritten, Lengthens, Torn};
    ghost use Rattle.durable_model.specs.Honest.{Only, Follows, Unchanged, Elapses, Counts};
    ghost use Rattle.durable_pair_memory.specs.InMemory.{seen_new, pair_moment, shown_since, may_show, pair_faults, OldIsSpent, DoesNew, MustFailBeside, shows_as_kept, shows_count_now, shows_only_now};

    ghost is_honest = { OldIsSpent };

    ghost seen = { seen_new };

    ghost may_leave = { may_show };

    ghost moment = { pair_moment };

    ghost left_since = { shown_since };

    ghost faults = { pair_faults };

    ghost did = { DoesNew };

    ghost left_as_seen = { shows_as_kept };

    ghost counts_now = { λ p t c _. shows_count_now p t c };

    ghost only_now = { λ p c _. shows_only_now p c };

    fn read(&mut self, alloc: Global) -> Result<Vec<u8>, DiskError>
        ensures bytes { IfOk result (λ bytes. bytes.items ≡ seen_new self.old) }
        ensures does { DoesNew Call.Left [] self.old self.new }
        ensures honest { OldIsSpent self.new ↔ OldIsSpent self.old }
        ensures unchanged { Unchanged seen_new may_show self.old self.new }
        ensures time { Elapses pair_moment shown_since may_show self.old self.new }
        ensures failures { Counts result (pair_faults self.old) (pair_faults self.new) }
        ensures fails { IsErrOf result DiskError.Device ↔ MustFailBeside 0 self.old.fresh self.old.former }
    {
        self.read_new(alloc)
    }

    fn write_at(&mut self, at: u64, bytes: &[u8]) -> Result<(), DiskError>
        ensures done { OnOk result (DoesNew (Call.Wrote at (length bytes.now)) bytes.now self.old self.new) }
        ensures tore { IsErrOf result DiskError.Device
            → DoesNew (Call.Tore at (length bytes.now)) [] self.old self.new }
        ensures left { IsErrOf result DiskError.NoMemory → DoesNew Call.Left [] self.old self.new }
        ensures honest { OldIsSpent self.new ↔ OldIsSpent self.old }
        ensures written { OnOk result (seen_new self.new ≡ overwritten (seen_new self.old) at bytes.now) }
        ensures others { Torn at (length bytes.now) (seen_new self.old) (seen_new self.new) }
        ensures crash { OldIsSpent self.old
            → Follows (Torn at (length bytes.now)) (may_show self.old) (may_show self.new) }
        ensures time { Elapses pair_moment shown_since may_show self.old self.new }
        ensures memory { IsErrOf result DiskError.NoMemory → Lengthens at (length bytes.now) (seen_new self.old) }
        ensures unwritten { IsErrOf result DiskError.NoMemory → Unchanged seen_new may_show self.old self.new }
        ensures failures { Counts result (pair_faults self.old) (pair_faults self.new) }
        ensures fails { IsErrOf result DiskError.Device
            ↔ MustFailBeside (length bytes.now) self.old.fresh self.old.former }
    {
        self.write_new(at, bytes)
    }

    fn sync(&mut self) -> Result<(), DiskError>
        ensures done { OnOk result (DoesNew Call.Synced [] self.old self.new) }
        ensures left { OnErr result (DoesNew Call.Left [] self.old self.new) }
        ensures honest { OldIsSpent self.new ↔ OldIsSpent self.old }
        ensures durable { OldIsSpent self.old → OnOk result (Only (seen_new self.new) (may_show self.new)) }
        ensures unchanged { Unchanged seen_new may_show self.old self.new }
        ensures time { Elapses pair_moment shown_since may_show self.old self.new }
        ensures memory { IsErrOf result DiskError.NoMemory → ⊥ }
        ensures failures { Counts result (pair_faults self.old) (pair_faults self.new) }
        ensures fails { IsErrOf result DiskError.Device ↔ MustFailBeside 0 self.old.fresh self.old.former }
    {
        self.sync_new()
    }

    fn failures(&self) -> u64 {
        self.failures
    }
}

impl Pair for MemoryPair {
    ghost use Rattle.std.specs.Prelude.{◌≡◌, ◌↔◌, ⊤, [], length, IfOk, OnOk, OnErr, IsErrOf};
    ghost use Rattle.durable_model_writes.specs.Writes.{Lengthens};
    ghost use Rattle.durable_model.specs.Honest.{Counts};
    ghost use Rattle.durable_pair_memory.specs.InMemory.{pair_faults, DoesOld};
    ghost use Rattle.durable_pair_memory.specs.InMemory.{may_leave_new, seen_old, may_leave_old, left_of_both_since, MustFailBeside, shown_is_new, new_is_shown, both_as_kept, both_count_now, both_only_now};

    ghost is_whole = { λ _. ⊤ };

    ghost new_may = { may_leave_new };

    ghost old_seen = { seen_old };

    ghost old_may = { may_leave_old };

    ghost both_since = { left_of_both_since };

    ghost means = { λ _ _ _ _ _ did. did };

    ghost stays_whole = { λ _ _ _ _ _. (λ _. tt, λ _. tt) };

    ghost becomes = { λ _ _ spent. spent };

    ghost honest_whole = { λ _ _. tt };

    ghost honest_spent = { λ _ d honest. honest d };

    ghost shown = { λ _ _ im _ since shows. (im, since, shows) };

    ghost of_both = { λ _ _ _ left. left };

    ghost only_new = { λ p c honest. shown_is_new p c honest };

    ghost new_is_left = { λ p c honest. new_is_shown p c honest };

    ghost both_as_seen = { λ p _. both_as_kept p };

    ghost both_now = { λ p t im _. both_count_now p t im };

    ghost both_only = { λ p im _. both_only_now p im };

    fn lent(&self) -> &[u8] {
        self.fresh.bytes()
    }

    fn lent_old(&self) -> &[u8] {
        self.former.bytes()
    }

    fn read_old(&mut self, alloc: Global) -> Result<Vec<u8>, DiskError>
        ensures bytes { IfOk result (λ bytes. bytes.items ≡ seen_old self.old) }
        ensures left { DoesOld Call.Left [] self.old self.new }
        ensures failures { Counts result (pair_faults self.old) (pair_faults self.new) }
        ensures fails { IsErrOf result DiskError.Device ↔ MustFailBeside 0 self.old.former self.old.fresh }
    {
        self.read_former(alloc)
    }

    fn write_old_at(&mut self, at: u64, bytes: &[u8]) -> Result<(), DiskError>
        ensures done { OnOk result (DoesOld (Call.Wrote at (length bytes.now)) bytes.now self.old self.new) }
        ensures tore { IsErrOf result DiskError.Device
            → DoesOld (Call.Tore at (length bytes.now)) [] self.old self.new }
        ensures left { IsErrOf result DiskError.NoMemory → DoesOld Call.Left [] self.old self.new }
        ensures memory { IsErrOf result DiskError.NoMemory → Lengthens at (length bytes.now) (seen_old self.old) }
        ensures failures { Counts result (pair_faults self.old) (pair_faults self.new) }
        ensures fails { IsErrOf result DiskError.Device
            ↔ MustFailBeside (length bytes.now) self.old.former self.old.fresh }
    {
        self.write_former(at, bytes)
    }

    fn sync_old(&mut self) -> Result<(), DiskError>
        ensures done { OnOk result (DoesOld Call.Synced [] self.old self.new) }
        ensures left { OnErr result (DoesOld Call.Left [] self.old self.new) }
        ensures memory { IsErrOf result DiskError.NoMemory → ⊥ }
        ensures failures { Counts result (pair_faults self.old) (pair_faults self.new) }
        ensures fails { IsErrOf result DiskError.Device ↔ MustFailBeside 0 self.old.former self.old.fresh }
    {
        self.sync_former()
    }
}
