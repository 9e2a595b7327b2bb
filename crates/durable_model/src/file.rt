//! A disk over a file of the operating system.

ghost use Rattle.std.specs.Prelude.{◌≡◌, ◌<◌, ◌≤◌, ◌+◌, true, false, OnOk};
ghost use Rattle.durable_model.specs.Honest.{Only};
ghost use Rattle.durable_model.specs.Memory.{seen_by_memory, memory_may_leave, calls_made, bytes_noted, StandsAs};

use crate::disk::Disk;
use crate::error::{DiskError, failed};
use crate::memory::MemoryDisk;
use std::alloc::{AllocError, Global};
use std::fs::File;
use std::io;
use std::io::ErrorKind;
use std::os::unix::fs::FileExt;
use std::path::Path;

/// A disk over a file of the operating system, which nobody else writes. A call of the system that fails is a failure
/// of the device. Nothing in the language says what a file holds, so the disk keeps beside it what the file must hold,
/// and each call on it: a read of anything else is a failure of the device too. So all that the contract says is proved,
/// and one premise is left, `WasHonest`: that a crash leaves of the file what the contract allows. A sync that failed may
/// have lost what was written, which no later one would tell: so each later one fails, until the file is opened again.
///
/// A sync takes no memory: a write takes what the note of the sync behind it needs. One of more than one byte, or that
/// makes the file longer, takes beside this what a write of one byte and its sync need, such as opens a gate.
#[derive(Drop)]
pub struct FileDisk {
    file: File,
    /// What the file must hold, and what was done to it since it was opened.
    held: MemoryDisk,
    /// Nothing was written since the last sync, or since it was opened.
    is_settled: bool,
    /// A sync has failed.
    is_loose: bool,
    failures: u64,
    ghost rests: { is_settled ≡ true → Only (seen_by_memory held) (memory_may_leave held) },
    ghost spare: { is_settled ≡ false → calls_made held < held.call_capacity },
}

impl FileDisk {
    ghost use Rattle.std.specs.Prelude.{◌≡◌, [], IfOk};
    ghost use Rattle.durable_model.specs.RealFile.{seen_by_file, IsAsOpened};

    /// Makes an empty file where there is none, and syncs it and its folder, so that a crash leaves the file's name.
    pub fn create(rt: &HostRuntime, path: &str) -> io::Result<FileDisk>
        ensures empty { IfOk result (λ disk. seen_by_file disk ≡ []) }
        ensures opened { IfOk result IsAsOpened }
    {
        let file = File::create_new(rt, path)?;
        file.sync_all()?;
        File::open(rt, folder_of(path))?.sync_all()?;
        FileDisk::over(rt.alloc(), file, Vec::new(rt.alloc()))
    }

    /// Opens a file that is there, syncs it, and reads it whole: what was read is what a read gives, and what a crash
    /// leaves. Where memory is refused the error's kind is `OutOfMemory`.
    pub fn open(rt: &HostRuntime, path: &str) -> io::Result<FileDisk>
        ensures opened { IfOk result IsAsOpened }
    {
        let file = File::options().read(true).write(true).open(rt, path)?;
        file.sync_all()?;
        match read_all(rt.alloc(), &file) {
            Ok(bytes) => FileDisk::over(rt.alloc(), file, bytes),
            Err(DiskError::NoMemory) => Err(io::Error::from(ErrorKind::OutOfMemory)),
            Err(DiskError::Device) => Err(io::Error::from(ErrorKind::Other)),
        }
    }

    /// A disk over a file that holds these bytes, all of them synced.
    fn over(alloc: Global, file: File, bytes: Vec<u8>) -> io::Result<FileDisk>
        ensures seen { IfOk result (λ disk. seen_by_file disk ≡ bytes.items) }
        ensures opened { IfOk result IsAsOpened }
    {
        match MemoryDisk::holding(alloc, bytes, 0, 0) {
            Ok(held) => Ok(FileDisk {
                file,
                held,
                is_settled: true,
                is_loose: false,
                failures: 0,
            }),
            Err(_) => Err(io::Error::from(ErrorKind::OutOfMemory)),
        }
    }
}

/// The folder that a file's name stands in.
fn folder_of(path: &str) -> Path<'_> {
    match Path::new(path).parent() {
        Some(folder) if !folder.as_str().is_empty() => folder,
        _ => Path::new("."),
    }
}

/// All the bytes of a file.
fn read_all(alloc: Global, file: &File) -> Result<Vec<u8>, DiskError> {
    let Ok(found) = file.metadata() else {
        return Err(DiskError::Device);
    };
    let mut bytes = Vec::new(alloc);
    bytes.resize(found.len() as usize, 0)?;
    match file.read_exact_at(&mut bytes, 0) {
        Ok(()) => Ok(bytes),
        Err(_) => Err(DiskError::Device),
    }
}

/// Makes space for the notes of a write of so many bytes and of the sync behind it, and if told so for one more of each as
/// well, the write being of one byte.
fn make_space(held: &mut MemoryDisk, n: usize, for_a_byte_more: bool) -> Result<(), AllocError>
    ensures stands { StandsAs held.old held.new }
    ensures capacity { held.old.call_capacity ≤ held.new.call_capacity }
    ensures calls { OnOk result (calls_made held.new + 2 ≤ held.new.call_capacity) }
    ensures bytes { OnOk result (bytes_noted held.new + n ≤ held.new.byte_capacity) }
{
    if for_a_byte_more {
        held.grow(4, n.saturating_add(1))
    } else {
        held.grow(2, n)
    }
}

impl Disk for FileDisk {
    ghost use Rattle.std.specs.Prelude.{◌≡◌, ⊤, length, OnOk, IsErrOf};
    ghost use Rattle.durable_model_writes.specs.Writes.{overwritten, Torn};
    ghost use Rattle.durable_model.specs.Honest.{Follows, Unchanged, Elapses, MayWantMemory, Counts};
    ghost use Rattle.durable_model.specs.RealFile.{seen_by_file, file_moment, file_may_leave, file_left_since, file_faults};
    ghost use Rattle.durable_model.specs.RealFile.{NotesWrite};
    ghost use Rattle.durable_model.specs.Memory.{left_as_kept, counts_as_kept, only_as_kept};

    ghost is_honest = { λ _. ⊤ };

    ghost seen = { seen_by_file };

    ghost may_leave = { file_may_leave };

    ghost moment = { file_moment };

    ghost left_since = { file_left_since };

    ghost faults = { file_faults };

    ghost left_as_seen = { λ d _. left_as_kept d.held };

    ghost counts_now = { λ d t c _. counts_as_kept d.held t c };

    ghost only_now = { λ d c _. only_as_kept d.held c };

    fn read(&mut self, alloc: Global) -> Result<Vec<u8>, DiskError> {
        match read_all(alloc, &self.file) {
            Ok(bytes) => {
                if bytes.as_slice() == self.held.bytes() {
                    Ok(bytes)
                } else {
                    Err(failed(&mut self.failures))
                }
            }
            Err(DiskError::NoMemory) => Err(DiskError::NoMemory),
            Err(DiskError::Device) => Err(failed(&mut self.failures)),
        }
    }

    /// It is noted first, so that what finds no memory is not written. Where a byte that the file has is to be written
    /// and there is no memory for its note, the device has failed. The first such write behind a longer one finds the
    /// space that it took, so this can only be a second one, or one with no other write before it since the opening.
    fn write_at(&mut self, at: u64, bytes: &[u8]) -> Result<(), DiskError>
        ensures written { OnOk result (seen_by_file self.new ≡ overwritten (seen_by_file self.old) at bytes.now) }
        ensures others { Torn at (length bytes.now) (seen_by_file self.old) (seen_by_file self.new) }
        ensures crash { Follows (Torn at (length bytes.now)) (file_may_leave self.old) (file_may_leave self.new) }
        ensures time { Elapses file_moment file_left_since file_may_leave self.old self.new }
        ensures memory { IsErrOf result DiskError.NoMemory
            → MayWantMemory at (length bytes.now) (seen_by_file self.old) }
        ensures unwritten { IsErrOf result DiskError.NoMemory → Unchanged seen_by_file file_may_leave self.old self.new }
        ensures failures { Counts result (file_faults self.old) (file_faults self.new) }
        // A failure of a write that may be out of memory is one of the file's: the write was noted.
        ensures noted { IsErrOf result DiskError.Device → NotesWrite at bytes.now self.old self.new }
    {
        let may_want = bytes.len() > 1 || self.held.is_lengthened_by(at, bytes.len());
        if make_space(&mut self.held, bytes.len(), may_want).is_err() {
            if may_want {
                return Err(DiskError::NoMemory);
            }
            return Err(failed(&mut self.failures));
        }
        if self.held.note_write(at as usize, bytes).is_err() {
            return Err(DiskError::NoMemory);
        }
        self.is_settled = false;
        match self.file.write_all_at(bytes, at) {
            Ok(()) => Ok(()),
            Err(_) => Err(failed(&mut self.failures)),
        }
    }

    /// The file is synced in each call, the sync noted where something was written since the last.
    fn sync(&mut self) -> Result<(), DiskError> {
        if self.is_loose || self.file.sync_all().is_err() {
            self.is_loose = true;
            return Err(failed(&mut self.failures));
        }
        if !self.is_settled {
            self.held.note_sync();
            self.is_settled = true;
        }
        Ok(())
    }

    fn failures(&self) -> u64 {
        self.failures
    }
}
