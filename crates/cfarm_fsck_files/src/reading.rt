//! The files of a folder's journals.

ghost use Rattle.std.specs.Prelude.{IfOk, IfErr};
ghost use Rattle.std.specs.String.{string_bytes};
ghost use Rattle.cfarm_files.specs.Locking.{CoversFolder};
ghost use Rattle.cfarm_fsck_files.specs.Reading.{AreOfNode, AreRead, HasUnread, IsReadAs, IsUnreadAt, IsUnreadNode};

use crate::unread::Unread;
use cfarm_files::{FileFault, Files};
use cfarm_fsck_journals::NodeFiles;
use cfarm_options::{journal_path, old_journal_path};
use std::alloc::Global;

/// The bytes of the file of this path, under its lock; none where no such file is there.
fn read_at<F: Files>(
    alloc: Global,
    files: &F,
    lock: &F::Lock,
    path: String,
) -> Result<Vec<u8>, Unread>
    requires locked { F.covers lock.now (string_bytes path) }
    ensures read { IfOk result (λ bytes. IsReadAs F.Files lock.now (string_bytes path) bytes.items) }
    ensures refused { IfErr result (IsUnreadAt F.Files lock.now (string_bytes path)) }
{
    match files.read_under(lock, &path) {
        Ok(Some(bytes)) => Ok(bytes),
        Ok(None) => Ok(Vec::new(alloc)),
        Err(FileFault::NoMemory) => Err(Unread::NoMemory),
        Err(FileFault::Refused(reason)) => Err(Unread::File(path, reason)),
    }
}

/// The two files of a node, first the old one.
fn files_of<F: Files>(
    alloc: Global,
    folder: &str,
    node: usize,
    files: &F,
    lock: &F::Lock,
) -> Result<NodeFiles, Unread>
    requires locked { CoversFolder (F.covers lock.now) folder.now }
    ensures read { IfOk result (AreOfNode F.Files lock.now folder.now node) }
    ensures refused { IfErr result (IsUnreadNode F.Files lock.now folder.now node) }
{
    let (Ok(path), Ok(old_path)) = (
        journal_path(alloc, folder, node),
        old_journal_path(alloc, folder, node),
    ) else {
        return Err(Unread::NoMemory);
    };
    let old = match read_at(alloc, files, lock, old_path) {
        Ok(bytes) => bytes,
        Err(fault) => return Err(fault),
    };
    match read_at(alloc, files, lock, path) {
        Ok(new) => Ok(NodeFiles { new, old }),
        Err(fault) => Err(fault),
    }
}

/// The files of so many nodes, in their order, under the folder's lock: the first that is refused is told.
pub(crate) fn read_files<F: Files>(
    alloc: Global,
    folder: &str,
    count: usize,
    files: &F,
    lock: &F::Lock,
) -> Result<Vec<NodeFiles>, Unread>
    requires locked { CoversFolder (F.covers lock.now) folder.now }
    ensures read { IfOk result (λ found. AreRead F.Files lock.now folder.now count found.items) }
    ensures refused { IfErr result (HasUnread F.Files lock.now folder.now count) }
{
    let mut found = Vec::new(alloc);
    for node in 0..count {
        let one = match files_of(alloc, folder, node, files, lock) {
            Ok(one) => one,
            Err(fault) => return Err(fault),
        };
        match found.push(one) {
            Ok(()) => {}
            Err(_) => return Err(Unread::NoMemory),
        }
    }
    Ok(found)
}
