//! The pair over two files.

ghost use Rattle.std.specs.Prelude.{◌≡◌, true, [], IsNone, IfOk};
ghost use Rattle.durable_model.specs.Honest.{Only};
ghost use Rattle.durable_pair_held.specs.Past.{seen_new, may_leave_new, seen_old, may_leave_old};
ghost use Rattle.durable_pair_held.specs.Held.{past_of, CanNoteMore, syncs_due};

use crate::opening::{begins_with_c, bytes_of, new_found, old_found};
use crate::unopened::Unopened;
use durable_model::{Disk, DiskError, failed};
use durable_model_writes::Call;
use durable_pair::Pair;
use durable_pair_held::Held;
use std::alloc::Global;
use std::fs::File;
use std::io;
use std::io::ErrorKind;
use std::os::unix::fs::FileExt;

/// Two disks over files that nobody else writes, of which the old one need not be there, and is never made. An old file that
/// counts no more is a disk of its first byte here: the rest is not read, and it is not written. The pair keeps beside the
/// files what they must hold, and each call on either; a read of anything else of the new file is a failure of the device, and
/// so is each sync of a file behind one that failed. The old file is read as it is opened, and not again. So one premise is
/// left, `WereHonest`: that a crash leaves of both files what the contract allows. A sync takes no memory: a write takes what
/// the notes of the syncs behind it need, of both files.
#[derive(Drop)]
pub struct FilePair {
    file: File,
    /// The old file, where it was there and counted.
    old_file: Option<File>,
    /// What the files must hold, and what was done to them since they were opened.
    held: Held,
    /// Nothing was written to the new file since its last sync, or since it was opened.
    is_settled: bool,
    is_old_settled: bool,
    /// A sync of the new file has failed.
    is_loose: bool,
    is_old_loose: bool,
    failures: u64,
    ghost rests: { is_settled ≡ true → Only (seen_new (past_of held)) (may_leave_new (past_of held)) },
    ghost old_rests: { is_old_settled ≡ true → Only (seen_old (past_of held)) (may_leave_old (past_of held)) },
    ghost spare: { CanNoteMore (syncs_due is_settled is_old_settled) held },
}

impl FilePair {
    ghost use Rattle.std.specs.Prelude.{◌≡◌, ◌↔◌, [], length, get_or, IsTrue, IfOk, OnOk, OnErr, IsErrOf};
    ghost use Rattle.durable_model.specs.Honest.{MayWantMemory, Counts};
    ghost use Rattle.durable_pair_files.specs.OnFiles.{AreAsOpened, FilesDoNew, FilesDoOld, seen_in_file, seen_in_old_file, files_faults};

    /// Opens the old file, where there is one, and then the new one, which is made where there is none; syncs both, and reads
    /// them: the new one whole, and the old one where it counts.
    pub fn open(rt: &HostRuntime, path: &str, old_path: &str) -> Result<FilePair, Unopened>
        ensures opened { IfOk result AreAsOpened }
    {
        let alloc = rt.alloc();
        match old_found(rt, old_path) {
            Ok((old_file, old_bytes)) => match new_found(rt, path) {
                Ok((file, bytes)) => Ok(FilePair::over(alloc, file, bytes, old_file, old_bytes)),
                Err(fault) => Err(Unopened::New(fault)),
            },
            Err(fault) => Err(Unopened::Old(fault)),
        }
    }

    /// A pair over files that hold these bytes, all of them synced.
    fn over(
        alloc: Global,
        file: File,
        bytes: Vec<u8>,
        old_file: Option<File>,
        old_bytes: Vec<u8>,
    ) -> FilePair
        ensures seen { seen_in_file result ≡ bytes.items }
        ensures old_seen { seen_in_old_file result ≡ old_bytes.items }
        ensures opened { AreAsOpened result }
    {
        FilePair {
            file,
            old_file,
            held: Held::holding(alloc, bytes, old_bytes),
            is_settled: true,
            is_old_settled: true,
            is_loose: false,
            is_old_loose: false,
            failures: 0,
        }
    }

    /// Whether the old file counts, as it was read when it was opened and was written since.
    pub fn old_counts(&self) -> bool
        ensures { IsTrue result ↔ (get_or (seen_in_old_file self.now) 0 0 ≡ 67) }
    {
        begins_with_c(self.held.old_bytes())
    }

    /// All the bytes of the new file, where they are those that it must hold.
    fn read_file(&mut self, alloc: Global) -> Result<Vec<u8>, DiskError>
        ensures bytes { IfOk result (λ bytes. bytes.items ≡ seen_in_file self.old) }
        ensures held { self.new.held ≡ self.old.held }
        ensures failures { Counts result (files_faults self.old) (files_faults self.new) }
    {
        match checked(bytes_of(alloc, &self.file), self.held.bytes()) {
            Err(DiskError::Device) => Err(failed(&mut self.failures)),
            read => read,
        }
    }

    /// All the bytes of the old file, as it was read and has been written since.
    fn read_old_file(&mut self, alloc: Global) -> Result<Vec<u8>, DiskError>
        ensures bytes { IfOk result (λ bytes. bytes.items ≡ seen_in_old_file self.old) }
        ensures left { FilesDoOld Call.Left [] self.old self.new }
        ensures failures { Counts result (files_faults self.old) (files_faults self.new) }
    {
        let bytes = self.held.old_bytes().to_vec(alloc)?;
        Ok(bytes)
    }

    /// It is noted first, so that what finds no memory is not written. Where a byte that the file has is to be written and
    /// there is no memory for its note, the device has failed.
    fn write_file(&mut self, at: u64, bytes: &[u8]) -> Result<(), DiskError>
        ensures done { OnOk result (FilesDoNew (Call.Wrote at (length bytes.now)) bytes.now self.old self.new) }
        ensures tore { IsErrOf result DiskError.Device
            → FilesDoNew (Call.Tore at (length bytes.now)) [] self.old self.new }
        ensures left { IsErrOf result DiskError.NoMemory → FilesDoNew Call.Left [] self.old self.new }
        ensures memory { IsErrOf result DiskError.NoMemory
            → MayWantMemory at (length bytes.now) (seen_in_file self.old) }
        ensures failures { Counts result (files_faults self.old) (files_faults self.new) }
    {
        let may_want = bytes.len() > 1 || self.held.is_lengthened_by(at, bytes.len());
        if self.held.note_write(at as usize, bytes, may_want).is_err() {
            if may_want {
                return Err(DiskError::NoMemory);
            }
            return Err(failed(&mut self.failures));
        }
        self.is_settled = false;
        match self.file.write_all_at(bytes, at) {
            Ok(()) => Ok(()),
            Err(_) => Err(failed(&mut self.failures)),
        }
    }

    /// An old file that is not there, or did not count as it was opened, is not written: the device has failed.
    fn write_old_file(&mut self, at: u64, bytes: &[u8]) -> Result<(), DiskError>
        ensures done { OnOk result (FilesDoOld (Call.Wrote at (length bytes.now)) bytes.now self.old self.new) }
        ensures tore { IsErrOf result DiskError.Device
            → FilesDoOld (Call.Tore at (length bytes.now)) [] self.old self.new }
        ensures left { IsErrOf result DiskError.NoMemory → FilesDoOld Call.Left [] self.old self.new }
        ensures memory { IsErrOf result DiskError.NoMemory
            → MayWantMemory at (length bytes.now) (seen_in_old_file self.old) }
        ensures failures { Counts result (files_faults self.old) (files_faults self.new) }
    {
        let Some(file) = &self.old_file else {
            return Err(failed(&mut self.failures));
        };
        let may_want = bytes.len() > 1 || self.held.is_old_lengthened_by(at, bytes.len());
        if self
            .held
            .note_old_write(at as usize, bytes, may_want)
            .is_err()
        {
            if may_want {
                return Err(DiskError::NoMemory);
            }
            return Err(failed(&mut self.failures));
        }
        self.is_old_settled = false;
        match file.write_all_at(bytes, at) {
            Ok(()) => Ok(()),
            Err(_) => Err(failed(&mut self.failures)),
        }
    }

    /// The file is synced where something was written since it was opened or synced: its opening synced it.
    fn sync_file(&mut self) -> Result<(), DiskError>
        ensures done { OnOk result (FilesDoNew Call.Synced [] self.old self.new) }
        ensures left { OnErr result (FilesDoNew Call.Left [] self.old self.new) }
        ensures memory { IsErrOf result DiskError.NoMemory → ⊥ }
        ensures failures { Counts result (files_faults self.old) (files_faults self.new) }
    {
        let fails = if self.is_settled {
            false
        } else {
            self.file.sync_all().is_err()
        };
        if self.is_loose || fails {
            self.is_loose = true;
            return Err(failed(&mut self.failures));
        }
        if !self.is_settled {
            self.held.note_sync();
            self.is_settled = true;
        }
        Ok(())
    }

    /// The same of the old file.
    fn sync_old_file(&mut self) -> Result<(), DiskError>
        ensures done { OnOk result (FilesDoOld Call.Synced [] self.old self.new) }
        ensures left { OnErr result (FilesDoOld Call.Left [] self.old self.new) }
        ensures memory { IsErrOf result DiskError.NoMemory → ⊥ }
        ensures failures { Counts result (files_faults self.old) (files_faults self.new) }
    {
        let fails = match &self.old_file {
            Some(file) if !self.is_old_settled => file.sync_all().is_err(),
            _ => false,
        };
        if self.is_old_loose || fails {
            self.is_old_loose = true;
            return Err(failed(&mut self.failures));
        }
        if !self.is_old_settled {
            self.held.note_old_sync();
            self.is_old_settled = true;
        }
        Ok(())
    }
}

/// What the calls on the new file do to the pair as one disk.
impl FilePair {
    ghost use Rattle.std.specs.Prelude.{◌≡◌, ◌↔◌, [], length, IfOk, OnOk, OnErr, IsErrOf};
    ghost use Rattle.durable_model_writes.specs.Writes.{overwritten, Torn};
    ghost use Rattle.durable_model.specs.Honest.{Only, Unchanged, Elapses, MayWantMemory, Counts};
    ghost use Rattle.durable_pair_files.specs.OnFiles.{FilesDoNew, FilesTear, seen_in_file, files_moment, files_may_show, files_shown_since, files_faults, OldFileIsSpent};

    fn read_new(&mut self, alloc: Global) -> Result<Vec<u8>, DiskError>
        ensures bytes { IfOk result (λ bytes. bytes.items ≡ seen_in_file self.old) }
        ensures does { FilesDoNew Call.Left [] self.old self.new }
        ensures honest { OldFileIsSpent self.new ↔ OldFileIsSpent self.old }
        ensures unchanged { Unchanged seen_in_file files_may_show self.old self.new }
        ensures time { Elapses files_moment files_shown_since files_may_show self.old self.new }
        ensures failures { Counts result (files_faults self.old) (files_faults self.new) }
    {
        self.read_file(alloc)
    }

    fn write_new(&mut self, at: u64, bytes: &[u8]) -> Result<(), DiskError>
        ensures done { OnOk result (FilesDoNew (Call.Wrote at (length bytes.now)) bytes.now self.old self.new) }
        ensures tore { IsErrOf result DiskError.Device
            → FilesDoNew (Call.Tore at (length bytes.now)) [] self.old self.new }
        ensures left { IsErrOf result DiskError.NoMemory → FilesDoNew Call.Left [] self.old self.new }
        ensures honest { OldFileIsSpent self.new ↔ OldFileIsSpent self.old }
        ensures written { OnOk result (seen_in_file self.new ≡ overwritten (seen_in_file self.old) at bytes.now) }
        ensures others { Torn at (length bytes.now) (seen_in_file self.old) (seen_in_file self.new) }
        ensures crash { FilesTear at (length bytes.now) self.old self.new }
        ensures time { Elapses files_moment files_shown_since files_may_show self.old self.new }
        ensures memory { IsErrOf result DiskError.NoMemory
            → MayWantMemory at (length bytes.now) (seen_in_file self.old) }
        ensures unwritten { IsErrOf result DiskError.NoMemory
            → Unchanged seen_in_file files_may_show self.old self.new }
        ensures failures { Counts result (files_faults self.old) (files_faults self.new) }
    {
        self.write_file(at, bytes)
    }

    fn sync_new(&mut self) -> Result<(), DiskError>
        ensures done { OnOk result (FilesDoNew Call.Synced [] self.old self.new) }
        ensures left { OnErr result (FilesDoNew Call.Left [] self.old self.new) }
        ensures honest { OldFileIsSpent self.new ↔ OldFileIsSpent self.old }
        ensures durable { OldFileIsSpent self.old → OnOk result (Only (seen_in_file self.new) (files_may_show self.new)) }
        ensures unchanged { Unchanged seen_in_file files_may_show self.old self.new }
        ensures time { Elapses files_moment files_shown_since files_may_show self.old self.new }
        ensures memory { IsErrOf result DiskError.NoMemory → ⊥ }
        ensures failures { Counts result (files_faults self.old) (files_faults self.new) }
    {
        self.sync_file()
    }
}

impl Disk for FilePair {
    ghost use Rattle.durable_pair_files.specs.OnFiles.{seen_in_file, files_moment, files_shown_since, files_may_show, files_faults, OldFileIsSpent, FilesDoNew};
    ghost use Rattle.durable_pair_held.specs.Past.{shows_as_kept, shows_count_now, shows_only_now};
    ghost use Rattle.durable_pair_held.specs.Held.{past_of};

    ghost is_honest = { OldFileIsSpent };

    ghost seen = { seen_in_file };

    ghost may_leave = { files_may_show };

    ghost moment = { files_moment };

    ghost left_since = { files_shown_since };

    ghost faults = { files_faults };

    ghost did = { FilesDoNew };

    ghost left_as_seen = { λ p honest. shows_as_kept (past_of p.held) honest };

    ghost counts_now = { λ p t c _. shows_count_now (past_of p.held) t c };

    ghost only_now = { λ p c _. shows_only_now (past_of p.held) c };

    fn read(&mut self, alloc: Global) -> Result<Vec<u8>, DiskError> {
        self.read_new(alloc)
    }

    fn write_at(&mut self, at: u64, bytes: &[u8]) -> Result<(), DiskError> {
        self.write_new(at, bytes)
    }

    fn sync(&mut self) -> Result<(), DiskError> {
        self.sync_new()
    }

    fn failures(&self) -> u64 {
        self.failures
    }
}

impl Pair for FilePair {
    ghost use Rattle.std.specs.Prelude.{⊤};
    ghost use Rattle.durable_pair_files.specs.OnFiles.{file_may_leave_new, seen_in_old_file, file_may_leave_old, files_since};
    ghost use Rattle.durable_pair_held.specs.Past.{shown_is_new, new_is_shown, both_as_kept, both_count_now, both_only_now};
    ghost use Rattle.durable_pair_held.specs.Held.{past_of};

    ghost is_whole = { λ _. ⊤ };

    ghost new_may = { file_may_leave_new };

    ghost old_seen = { seen_in_old_file };

    ghost old_may = { file_may_leave_old };

    ghost both_since = { files_since };

    ghost means = { λ _ _ _ _ _ did. did };

    ghost stays_whole = { λ _ _ _ _ _. (λ _. tt, λ _. tt) };

    ghost becomes = { λ _ _ spent. spent };

    ghost honest_whole = { λ _ _. tt };

    ghost honest_spent = { λ _ d honest. honest d };

    ghost shown = { λ _ _ im _ since shows. (im, since, shows) };

    ghost of_both = { λ _ _ _ left. left };

    ghost only_new = { λ p c honest. shown_is_new (past_of p.held) c honest };

    ghost new_is_left = { λ p c honest. new_is_shown (past_of p.held) c honest };

    ghost both_as_seen = { λ p _. both_as_kept (past_of p.held) };

    ghost both_now = { λ p t im _. both_count_now (past_of p.held) t im };

    ghost both_only = { λ p im _. both_only_now (past_of p.held) im };

    fn lent(&self) -> &[u8] {
        self.held.bytes()
    }

    fn lent_old(&self) -> &[u8] {
        self.held.old_bytes()
    }

    fn read_old(&mut self, alloc: Global) -> Result<Vec<u8>, DiskError> {
        self.read_old_file(alloc)
    }

    fn write_old_at(&mut self, at: u64, bytes: &[u8]) -> Result<(), DiskError> {
        self.write_old_file(at, bytes)
    }

    fn sync_old(&mut self) -> Result<(), DiskError> {
        self.sync_old_file()
    }
}

/// What was read of a file, where it is what the file must hold.
fn checked(found: io::Result<Vec<u8>>, held: &[u8]) -> Result<Vec<u8>, DiskError>
    ensures { IfOk result (λ bytes. bytes.items ≡ held.now) }
{
    match found {
        Ok(bytes) => {
            if bytes.as_slice() == held {
                Ok(bytes)
            } else {
                Err(DiskError::Device)
            }
        }
        Err(fault) if fault.kind() == ErrorKind::OutOfMemory => Err(DiskError::NoMemory),
        Err(_) => Err(DiskError::Device),
    }
}
