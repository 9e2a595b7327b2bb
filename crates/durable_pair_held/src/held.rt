//! What the two files must hold.

ghost use Rattle.std.specs.Prelude.{true, ◌≡◌, ◌↔◌, ◌≤◌, ◌+◌, ℕ, [], length, take, drop, vec_len, vec_capacity, ◌++◌, IsTrue, OnOk, OnErr, IfOk};
ghost use Rattle.durable_model_writes.specs.Writes.{Lengthens, overwritten};
ghost use Rattle.durable_model_writes.specs.declared.call.Call.TheVariants.{Wrote, Synced};
ghost use Rattle.durable_pair_held.specs.Past.{seen_new, seen_old, PutsOver, DoesNew, DoesOld};

use crate::noted::{Noted, Step};
use durable_model_writes::{keep, overwrite};
use std::alloc::{AllocError, Global};

/// What the two files of a pair must hold, in one copy, and what was done to them since they were opened. Of a write it
/// keeps where it was and which bytes it wrote over, so what a crash at any past moment might have left is known.
#[derive(Drop)]
pub struct Held {
    bytes: Vec<u8>,
    old_bytes: Vec<u8>,
    /// The writes and syncs so far, in order.
    notes: Vec<Noted>,
    /// The bytes that the writes to the new file wrote over, one after another.
    lost: Vec<u8>,
    old_lost: Vec<u8>,
}

impl Held {
    ghost use Rattle.durable_pair_held.specs.Held.{past_of, CanNoteMore, HasByte, HasOldByte};

    /// Files that hold these bytes, all of them synced. It takes no memory.
    pub fn holding(alloc: Global, bytes: Vec<u8>, old_bytes: Vec<u8>) -> Held
        ensures seen { seen_new (past_of result) ≡ bytes.items }
        ensures old_seen { seen_old (past_of result) ≡ old_bytes.items }
        ensures no_call { (past_of result).notes ≡ [] }
        ensures space { CanNoteMore 0 result }
    {
        Held {
            bytes,
            old_bytes,
            notes: Vec::new(alloc),
            lost: Vec::new(alloc),
            old_lost: Vec::new(alloc),
        }
    }

    /// What a read of the new file gives.
    pub fn bytes(&self) -> &[u8]
        ensures { result.now ≡ seen_new (past_of self.now) }
    {
        self.bytes.as_slice()
    }

    /// What a read of the old file gives.
    pub fn old_bytes(&self) -> &[u8]
        ensures { result.now ≡ seen_old (past_of self.now) }
    {
        self.old_bytes.as_slice()
    }

    /// A write of so many bytes would make the new file longer.
    pub fn is_lengthened_by(&self, at: u64, n: usize) -> bool
        ensures { IsTrue result ↔ Lengthens at n (seen_new (past_of self.now)) }
    {
        is_lengthened(&self.bytes, at, n)
    }

    /// A write of so many bytes would make the old file longer.
    pub fn is_old_lengthened_by(&self, at: u64, n: usize) -> bool
        ensures { IsTrue result ↔ Lengthens at n (seen_old (past_of self.now)) }
    {
        is_lengthened(&self.old_bytes, at, n)
    }

    /// Writes to the new file, and notes the write. It makes space for the note, for one of a sync of each file behind it, and if
    /// told so for a write of one byte more to either file and its sync. Where it finds no memory nothing was written.
    pub fn note_write(
        &mut self,
        at: usize,
        bytes: &[u8],
        for_a_byte_more: bool,
    ) -> Result<(), AllocError>
        ensures done { OnOk result (DoesNew (Wrote at (length bytes.now)) bytes.now (past_of self.old) (past_of self.new)) }
        ensures stands { OnErr result (past_of self.new ≡ past_of self.old) }
        ensures spare { OnOk result (CanNoteMore 2 self.new) }
        ensures byte { for_a_byte_more ≡ true → OnOk result (HasOldByte self.new) }
        ensures no_less { OnErr result ((n : ℕ) → CanNoteMore n self.old → CanNoteMore n self.new) }
    {
        match write_over(
            &mut self.bytes,
            &mut self.lost,
            &mut self.old_lost,
            &mut self.notes,
            at,
            bytes,
            for_a_byte_more,
        ) {
            Ok(step) => {
                self.notes.push_reserved(Noted::New(step));
                Ok(())
            }
            Err(e) => Err(e),
        }
    }

    /// The same to the old file.
    pub fn note_old_write(
        &mut self,
        at: usize,
        bytes: &[u8],
        for_a_byte_more: bool,
    ) -> Result<(), AllocError>
        ensures done { OnOk result (DoesOld (Wrote at (length bytes.now)) bytes.now (past_of self.old) (past_of self.new)) }
        ensures stands { OnErr result (past_of self.new ≡ past_of self.old) }
        ensures spare { OnOk result (CanNoteMore 2 self.new) }
        ensures byte { for_a_byte_more ≡ true → OnOk result (HasByte self.new) }
        ensures no_less { OnErr result ((n : ℕ) → CanNoteMore n self.old → CanNoteMore n self.new) }
    {
        match write_over(
            &mut self.old_bytes,
            &mut self.old_lost,
            &mut self.lost,
            &mut self.notes,
            at,
            bytes,
            for_a_byte_more,
        ) {
            Ok(step) => {
                self.notes.push_reserved(Noted::Old(step));
                Ok(())
            }
            Err(e) => Err(e),
        }
    }

    /// Notes a sync of the new file.
    pub fn note_sync(&mut self)
        requires { CanNoteMore 1 self.old }
        ensures does { DoesNew Synced [] (past_of self.old) (past_of self.new) }
        ensures spare { (n : ℕ) → CanNoteMore (n + 1) self.old → CanNoteMore n self.new }
    {
        self.notes.push_reserved(Noted::New(Step::Sync));
    }

    /// Notes a sync of the old file.
    pub fn note_old_sync(&mut self)
        requires { CanNoteMore 1 self.old }
        ensures does { DoesOld Synced [] (past_of self.old) (past_of self.new) }
        ensures spare { (n : ℕ) → CanNoteMore (n + 1) self.old → CanNoteMore n self.new }
    {
        self.notes.push_reserved(Noted::Old(Step::Sync));
    }
}

/// Whether a write of so many bytes makes these more.
fn is_lengthened(bytes: &[u8], at: u64, n: usize) -> bool
    ensures { IsTrue result ↔ Lengthens at n bytes.now }
{
    let len = bytes.len() as u64;
    n != 0 && (len < at || len - at < n as u64)
}

/// Writes over bytes, and keeps those that were there. It makes space for three notes, and where it is told so for two more and
/// for a byte of either file.
fn write_over(
    file: &mut Vec<u8>,
    lost: &mut Vec<u8>,
    other_lost: &mut Vec<u8>,
    notes: &mut Vec<Noted>,
    at: usize,
    bytes: &[u8],
    for_a_byte_more: bool,
) -> Result<Step, AllocError>
    ensures done { IfOk result (λ s. PutsOver at bytes.now file.old.items lost.old.items s file.new.items
        lost.new.items) }
    ensures space { OnOk result (vec_len notes.new + 3 ≤ vec_capacity notes.new) }
    ensures byte { for_a_byte_more ≡ true → OnOk result (vec_len other_lost.new + 1 ≤ vec_capacity other_lost.new) }
    ensures stays { OnErr result (file.new.items ≡ file.old.items) }
    ensures lost_stays { OnErr result (lost.new.items ≡ lost.old.items) }
    ensures other_stays { other_lost.new.items ≡ other_lost.old.items }
    ensures notes { notes.new.items ≡ notes.old.items }
    ensures len { vec_len notes.new ≡ vec_len notes.old }
    ensures capacity { vec_capacity notes.old ≤ vec_capacity notes.new }
{
    let len = file.len();
    let over = part(file.as_slice(), at, bytes.len()).len();
    make_space(lost, notes, over, for_a_byte_more)?;
    if for_a_byte_more {
        other_lost.reserve(1)?;
    }
    put_over(file, lost, at, bytes)?;
    Ok(Step::Write(at, bytes.len(), len))
}

/// Makes space for the notes of a write over so many bytes and of a sync of each file behind it.
fn make_space(
    lost: &mut Vec<u8>,
    notes: &mut Vec<Noted>,
    over: usize,
    for_a_byte_more: bool,
) -> Result<(), AllocError>
    ensures lost_stays { lost.new.items ≡ lost.old.items }
    ensures lost_space { OnOk result (vec_len lost.new + over ≤ vec_capacity lost.new) }
    ensures notes { notes.new.items ≡ notes.old.items }
    ensures len { vec_len notes.new ≡ vec_len notes.old }
    ensures capacity { vec_capacity notes.old ≤ vec_capacity notes.new }
    ensures space { OnOk result (vec_len notes.new + 3 ≤ vec_capacity notes.new) }
{
    let (calls, most) = space_for(over, for_a_byte_more);
    notes.reserve(calls)?;
    lost.reserve(most)
}

/// How many notes and how many bytes a write over so many needs space for.
fn space_for(over: usize, for_a_byte_more: bool) -> (usize, usize)
    ensures calls { 3 ≤ result.0 }
    ensures bytes { over ≤ result.1 }
{
    if for_a_byte_more {
        (5, over.saturating_add(1))
    } else {
        (3, over)
    }
}

/// Writes over bytes, and keeps those that were there, where there is space for them.
fn put_over(
    file: &mut Vec<u8>,
    lost: &mut Vec<u8>,
    at: usize,
    bytes: &[u8],
) -> Result<(), AllocError>
    requires { vec_len lost.old + length (take (length bytes.now) (drop at file.old.items)) ≤ vec_capacity lost.old }
    ensures ok { OnOk result (file.new.items ≡ overwritten file.old.items at bytes.now) }
    ensures lost { OnOk result (lost.new.items ≡ lost.old.items ++ take (length bytes.now) (drop at file.old.items)) }
    ensures stays { OnErr result (file.new.items ≡ file.old.items) }
    ensures lost_stays { OnErr result (lost.new.items ≡ lost.old.items) }
{
    let len = lost.len();
    keep(lost, part(file.as_slice(), at, bytes.len()));
    match overwrite(file, at, bytes) {
        Ok(()) => Ok(()),
        Err(e) => {
            lost.truncate(len);
            Err(e)
        }
    }
}

/// So many bytes from there on, or as many as there are.
#[tactic(auto, using(crate::proofs::Parts::part_none, crate::proofs::Parts::part_all))]
fn part(bytes: &[u8], at: usize, n: usize) -> &[u8]
    ensures { result.now ≡ take n (drop at bytes.now) }
{
    if bytes.len() <= at {
        return &[];
    }
    let (_, behind) = bytes.split_at(at);
    if behind.len() <= n {
        return behind;
    }
    let (front, _) = behind.split_at(n);
    front
}
