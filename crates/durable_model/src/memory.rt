//! A disk in memory, which can fail, crash and tear writes.

ghost use Rattle.std.specs.Prelude.{◌≡◌, ◌≤◌, [], length, sum_by, vec_capacity};
ghost use Rattle.durable_model_writes.specs.History.{size_of, noted, seen_after};

use crate::disk::Disk;
use crate::error::{DiskError, failed};
use durable_model_writes::{Call, NoMemory, keep, note, overwrite, torn_image};
use rand_pcg::Pcg32;
use std::alloc::{AllocError, Global};

/// An honest disk in memory. It notes each call, so that what a crash at any past moment might have left is known.
#[derive(Drop)]
pub struct MemoryDisk {
    /// What it held at first, all of it synced.
    first: Vec<u8>,
    /// What a read gives.
    bytes: Vec<u8>,
    /// The calls so far, in order.
    calls: Vec<Call>,
    /// The bytes of the writes that were done, one after another.
    written: Vec<u8>,
    /// How many calls it can note.
    call_capacity: usize,
    /// How many bytes of writes it can note.
    byte_capacity: usize,
    /// How many calls stand up to the last sync.
    synced: usize,
    /// Which call is to fail, counted from 1; 0 for none.
    fails: usize,
    /// From which call on each is to fail, counted from 1; 0 for none.
    stops: usize,
    failures: u64,
    ghost kept: { bytes.items ≡ seen_after (noted calls.items written.items []) first.items },
    ghost whole: { sum_by size_of calls.items ≡ length written.items },
    ghost for_calls: { call_capacity ≤ vec_capacity calls },
    ghost for_bytes: { byte_capacity ≤ vec_capacity written },
}

impl MemoryDisk {
    ghost use Rattle.std.specs.Prelude.{◌≡◌, ◌<◌, ◌≤◌, ◌↔◌, ◌+◌, [], false, length, IsTrue, IfOk, OnOk, OnErr};
    ghost use Rattle.durable_model.specs.Honest.{Only, Follows, Unchanged, Elapses};
    ghost use Rattle.durable_model_writes.specs.History.{size_of};
    ghost use Rattle.durable_model.specs.Memory.{seen_by_memory, memory_may_leave, memory_faults, memory_moment, memory_left_since, calls_made, bytes_noted, told_to_fail, told_to_stop, FailsAt, NoneFails, IsToldAs, IsPastCapacity, IsSettled, HasCapacity, KeepsCapacity, HasCounted, HasNotCounted, Notes, StandsAs};
    ghost use Rattle.durable_model_writes.specs.Writes.{overwritten, Lengthens, Torn};

    /// An empty disk that can note so many calls, and so many bytes in its writes. A call past that is a failure
    /// of the device.
    pub fn new(alloc: Global, calls: usize, bytes: usize) -> Result<MemoryDisk, NoMemory>
        ensures empty { IfOk result (λ disk. seen_by_memory disk ≡ []) }
        ensures settled { IfOk result IsSettled }
        ensures capacity { IfOk result (HasCapacity calls bytes) }
        ensures none_fails { IfOk result NoneFails }
        ensures whole { IfOk result (λ disk. memory_faults disk ≡ 0) }
    {
        MemoryDisk::holding(alloc, Vec::new(alloc), calls, bytes)
    }

    /// A disk that holds these bytes, all of them synced.
    pub fn holding(
        alloc: Global,
        content: Vec<u8>,
        calls: usize,
        bytes: usize,
    ) -> Result<MemoryDisk, NoMemory>
        ensures seen { IfOk result (λ disk. seen_by_memory disk ≡ content.items) }
        ensures settled { IfOk result IsSettled }
        ensures capacity { IfOk result (HasCapacity calls bytes) }
        ensures none_fails { IfOk result NoneFails }
        ensures whole { IfOk result (λ disk. memory_faults disk ≡ 0) }
    {
        Ok(MemoryDisk {
            first: content.to_vec(alloc)?,
            bytes: content,
            calls: Vec::with_capacity(alloc, calls)?,
            written: Vec::with_capacity(alloc, bytes)?,
            call_capacity: calls,
            byte_capacity: bytes,
            synced: 0,
            fails: 0,
            stops: 0,
            failures: 0,
        })
    }

    /// Lets its nth call fail, counted from the first after it was made; there is no call 0. A write that fails so
    /// may tear its range.
    pub fn fail_at(&mut self, n: usize)
        ensures { self.new ≡ told_to_fail self.old n }
    {
        self.fails = n;
    }

    /// Lets its device stop: from its nth call on, counted from the first after it was made, each fails; 0 lets none
    /// fail so. A write that fails so may tear its range. The one call that [`MemoryDisk::fail_at`] told fails too.
    pub fn stop_from(&mut self, n: usize)
        ensures { self.new ≡ told_to_stop self.old n }
    {
        self.stops = n;
    }

    /// A disk that a crash now may leave, with as much capacity anew, with no call that is to fail, and which does not
    /// stop. Each write that was not synced is lost, done, mixed with what was there, or garbage, as the words choose.
    pub fn crash(&self, alloc: Global, draws: &mut Pcg32) -> Result<MemoryDisk, NoMemory>
        ensures image { IfOk result (λ disk. memory_may_leave self.now (seen_by_memory disk)) }
        ensures settled { IfOk result IsSettled }
        ensures capacity { IfOk result (KeepsCapacity self.now) }
        ensures none_fails { IfOk result NoneFails }
        ensures whole { IfOk result (λ disk. memory_faults disk ≡ 0) }
    {
        let image = torn_image(
            alloc,
            &self.first,
            &self.calls,
            &self.written,
            self.synced,
            draws,
        )?;
        MemoryDisk::holding(alloc, image, self.call_capacity, self.byte_capacity)
    }

    /// What a read gives.
    pub fn bytes(&self) -> &[u8]
        ensures { result.now ≡ seen_by_memory self.now }
    {
        self.bytes.as_slice()
    }

    /// A write of so many bytes would make it longer.
    pub fn is_lengthened_by(&self, at: u64, n: usize) -> bool
        ensures { IsTrue result ↔ Lengthens at n (seen_by_memory self.now) }
    {
        let len = self.bytes.len() as u64;
        n != 0 && (len < at || len - at < n as u64)
    }

    /// Makes its capacity suffice for so many calls more, and for so many bytes more in their writes.
    pub fn grow(&mut self, calls: usize, bytes: usize) -> Result<(), AllocError>
        ensures stands { StandsAs self.old self.new }
        ensures capacity { self.old.call_capacity ≤ self.new.call_capacity }
        ensures calls { OnOk result (calls_made self.new + calls ≤ self.new.call_capacity) }
        ensures bytes { OnOk result (bytes_noted self.new + bytes ≤ self.new.byte_capacity) }
    {
        self.calls.reserve(calls)?;
        self.call_capacity = self.calls.capacity();
        self.written.reserve(bytes)?;
        self.byte_capacity = self.written.capacity();
        Ok(())
    }

    /// Writes, and notes the write. Where it finds no memory nothing was written.
    pub fn note_write(&mut self, at: usize, bytes: &[u8]) -> Result<(), AllocError>
        requires calls { calls_made self.old < self.old.call_capacity }
        requires bytes { bytes_noted self.old + length bytes.now ≤ self.old.byte_capacity }
        ensures notes { OnOk result (Notes (Call.Wrote at (length bytes.now)) bytes.now self.old self.new) }
        ensures stands { OnErr result (StandsAs self.old self.new) }
        ensures written { OnOk result (seen_by_memory self.new ≡ overwritten (seen_by_memory self.old) at bytes.now) }
        ensures others { Torn at (length bytes.now) (seen_by_memory self.old) (seen_by_memory self.new) }
        ensures crash { Follows (Torn at (length bytes.now)) (memory_may_leave self.old) (memory_may_leave self.new) }
        ensures time { Elapses memory_moment memory_left_since memory_may_leave self.old self.new }
        ensures memory { OnErr result (Lengthens at (length bytes.now) (seen_by_memory self.old)) }
        ensures unwritten { OnErr result (Unchanged seen_by_memory memory_may_leave self.old self.new) }
        ensures capacity { KeepsCapacity self.old self.new }
        ensures told { IsToldAs self.old self.new }
        ensures counted { OnOk result (HasCounted (length bytes.now) self.old self.new) }
        ensures uncounted { OnErr result (HasNotCounted self.old self.new) }
        ensures calls { calls_made self.new ≤ calls_made self.old + 1 }
        ensures failures { self.new.failures ≡ self.old.failures }
    {
        overwrite(&mut self.bytes, at, bytes)?;
        keep(&mut self.written, bytes);
        note(&mut self.calls, Call::Wrote(at, bytes.len()));
        Ok(())
    }

    /// Notes a sync: from now on a crash leaves what a read gives.
    pub fn note_sync(&mut self)
        requires { calls_made self.old < self.old.call_capacity }
        ensures notes { Notes Call.Synced [] self.old self.new }
        ensures durable { Only (seen_by_memory self.new) (memory_may_leave self.new) }
        ensures unchanged { Unchanged seen_by_memory memory_may_leave self.old self.new }
        ensures time { Elapses memory_moment memory_left_since memory_may_leave self.old self.new }
        ensures capacity { KeepsCapacity self.old self.new }
        ensures told { IsToldAs self.old self.new }
        ensures counted { HasCounted 0 self.old self.new }
        ensures failures { self.new.failures ≡ self.old.failures }
    {
        self.note_call(Call::Synced);
        self.synced = self.calls.len();
    }

    /// Notes a call that wrote nothing.
    pub fn note_call(&mut self, call: Call)
        requires capacity { calls_made self.old < self.old.call_capacity }
        requires nothing { size_of call ≡ 0 }
        ensures notes { Notes call [] self.old self.new }
        ensures time { Elapses memory_moment memory_left_since memory_may_leave self.old self.new }
        ensures bytes { self.new.bytes ≡ self.old.bytes }
        ensures capacity { KeepsCapacity self.old self.new }
        ensures told { IsToldAs self.old self.new }
        ensures counted { HasCounted 0 self.old self.new }
        ensures failures { self.new.failures ≡ self.old.failures }
    {
        note(&mut self.calls, call);
    }

    /// The next call is one of those that are to fail.
    pub fn fails_now(&self) -> bool
        ensures { IsTrue result ↔ FailsAt (calls_made self.now + 1) self.now }
    {
        let made = self.calls.len();
        (self.fails != 0 && made == self.fails - 1) || (self.stops != 0 && self.stops - 1 <= made)
    }

    /// The capacity suffices for one call more, which writes so many bytes.
    pub fn has_capacity(&self, bytes: usize) -> bool
        ensures yes_calls { IsTrue result → calls_made self.now < self.now.call_capacity }
        ensures yes_bytes { IsTrue result → bytes_noted self.now + bytes ≤ self.now.byte_capacity }
        ensures no { result ≡ false → IsPastCapacity bytes self.now }
    {
        self.calls.len() < self.call_capacity
            && self.written.len() <= self.byte_capacity
            && bytes <= self.byte_capacity - self.written.len()
    }
}

impl Disk for MemoryDisk {
    ghost use Rattle.std.specs.Prelude.{◌≡◌, ◌↔◌, length, ⊤, IfOk, OnOk, IsErrOf};
    ghost use Rattle.durable_model_writes.specs.Writes.{overwritten, Lengthens, Torn};
    ghost use Rattle.durable_model.specs.Honest.{Only, Follows, Unchanged, Elapses, Counts};
    ghost use Rattle.durable_model.specs.Memory.{seen_by_memory, memory_faults, memory_may_leave, memory_moment, memory_left_since, MustFail, KeepsCount, left_as_kept, counts_as_kept, only_as_kept};

    ghost is_honest = { λ _. ⊤ };

    ghost seen = { seen_by_memory };

    ghost may_leave = { memory_may_leave };

    ghost moment = { memory_moment };

    ghost left_since = { memory_left_since };

    ghost faults = { memory_faults };

    ghost left_as_seen = { λ d _. left_as_kept d };

    ghost counts_now = { λ d t c _. counts_as_kept d t c };

    ghost only_now = { λ d c _. only_as_kept d c };

    fn read(&mut self, alloc: Global) -> Result<Vec<u8>, DiskError>
        ensures bytes { IfOk result (λ bytes. bytes.items ≡ seen_by_memory self.old) }
        ensures unchanged { Unchanged seen_by_memory memory_may_leave self.old self.new }
        ensures time { Elapses memory_moment memory_left_since memory_may_leave self.old self.new }
        ensures failures { Counts result (memory_faults self.old) (memory_faults self.new) }
        ensures fails { IsErrOf result DiskError.Device ↔ MustFail 0 self.old }
        ensures count { KeepsCount 0 result self.old self.new }
    {
        if !self.has_capacity(0) {
            return Err(failed(&mut self.failures));
        }
        if self.fails_now() {
            self.note_call(Call::Left);
            return Err(failed(&mut self.failures));
        }
        let bytes = self.bytes.to_vec(alloc)?;
        self.note_call(Call::Left);
        Ok(bytes)
    }

    fn write_at(&mut self, at: u64, bytes: &[u8]) -> Result<(), DiskError>
        ensures written { OnOk result (seen_by_memory self.new ≡ overwritten (seen_by_memory self.old) at bytes.now) }
        ensures others { Torn at (length bytes.now) (seen_by_memory self.old) (seen_by_memory self.new) }
        ensures crash { Follows (Torn at (length bytes.now)) (memory_may_leave self.old) (memory_may_leave self.new) }
        ensures time { Elapses memory_moment memory_left_since memory_may_leave self.old self.new }
        ensures memory { IsErrOf result DiskError.NoMemory → Lengthens at (length bytes.now) (seen_by_memory self.old) }
        ensures unwritten { IsErrOf result DiskError.NoMemory
            → Unchanged seen_by_memory memory_may_leave self.old self.new }
        ensures unseen { IsErrOf result DiskError.Device → seen_by_memory self.new ≡ seen_by_memory self.old }
        ensures failures { Counts result (memory_faults self.old) (memory_faults self.new) }
        ensures fails { IsErrOf result DiskError.Device ↔ MustFail (length bytes.now) self.old }
        ensures count { KeepsCount (length bytes.now) result self.old self.new }
    {
        let at = at as usize;
        if !self.has_capacity(bytes.len()) {
            return Err(failed(&mut self.failures));
        }
        if self.fails_now() {
            self.note_call(Call::Tore(at, bytes.len()));
            return Err(failed(&mut self.failures));
        }
        self.note_write(at, bytes)?;
        Ok(())
    }

    fn sync(&mut self) -> Result<(), DiskError>
        ensures durable { OnOk result (Only (seen_by_memory self.new) (memory_may_leave self.new)) }
        ensures unchanged { Unchanged seen_by_memory memory_may_leave self.old self.new }
        ensures time { Elapses memory_moment memory_left_since memory_may_leave self.old self.new }
        ensures memory { IsErrOf result DiskError.NoMemory → ⊥ }
        ensures failures { Counts result (memory_faults self.old) (memory_faults self.new) }
        ensures fails { IsErrOf result DiskError.Device ↔ MustFail 0 self.old }
        ensures count { KeepsCount 0 result self.old self.new }
    {
        if !self.has_capacity(0) {
            return Err(failed(&mut self.failures));
        }
        if self.fails_now() {
            self.note_call(Call::Left);
            return Err(failed(&mut self.failures));
        }
        self.note_sync();
        Ok(())
    }

    fn failures(&self) -> u64 {
        self.failures
    }
}
