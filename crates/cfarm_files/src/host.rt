//! The files of the machine.

use crate::fault::{DiskFault, FileFault};
use crate::files::Files;
use crate::locking::locked;
use crate::looking::{are_same, free_at, leads_to_something};
use crate::placing::place;
use crate::reason::Reason;
use durable_pair_files::{FilePair, Unopened};
use std::fs::File;
use std::io::ErrorKind;
use std::{fs, io};

/// The files of the machine, of which nothing is known before they are read.
#[derive(Drop)]
pub struct HostFiles<'a> {
    rt: &'a HostRuntime,
    says_why: bool,
}

/// Whether nothing has that name.
fn is_nothing(rt: &HostRuntime, path: &str) -> bool {
    match fs::symlink_metadata(rt, path) {
        Ok(_) => false,
        Err(fault) => fault.kind() == ErrorKind::NotFound,
    }
}

impl<'a> HostFiles<'a> {
    /// Those of this machine; it is said why one is refused, or not.
    pub fn over(rt: &'a HostRuntime, says_why: bool) -> HostFiles<'a> {
        HostFiles { rt, says_why }
    }

    /// This reason, where it is said.
    fn said(&self, reason: Reason) -> Reason {
        if self.says_why {
            reason
        } else {
            Reason::Unsaid
        }
    }

    /// What a call of the system was refused for.
    fn fault_of(&self, fault: &io::Error) -> FileFault {
        match fault.kind() {
            ErrorKind::OutOfMemory => FileFault::NoMemory,
            _ => FileFault::Refused(self.said(Reason::of(fault))),
        }
    }

    /// The same, where that is of the old file of a node, or of the new one.
    fn disk_fault_of(&self, fault: &Unopened) -> DiskFault {
        match fault {
            Unopened::Old(told) => match self.fault_of(told) {
                FileFault::NoMemory => DiskFault::NoMemory,
                FileFault::Refused(reason) => DiskFault::Old(reason),
            },
            Unopened::New(told) => match self.fault_of(told) {
                FileFault::NoMemory => DiskFault::NoMemory,
                FileFault::Refused(reason) => DiskFault::New(reason),
            },
        }
    }
}

impl Files for HostFiles<'_> {
    type Disk = FilePair;

    type Lock = File;

    fn read(&self, path: &str) -> Result<Vec<u8>, FileFault> {
        match fs::read(self.rt, path) {
            Ok(bytes) => Ok(bytes),
            Err(fault) => Err(self.fault_of(&fault)),
        }
    }

    fn read_if_there(&self, path: &str) -> Result<Option<Vec<u8>>, FileFault> {
        match fs::metadata(self.rt, path) {
            Ok(found) if found.is_file() => match self.read(path) {
                Ok(bytes) => Ok(Some(bytes)),
                Err(fault) => Err(fault),
            },
            Ok(_) => Err(FileFault::Refused(self.said(Reason::NotPlain))),
            Err(fault) if fault.kind() == ErrorKind::NotFound && is_nothing(self.rt, path) => Ok(
                None,
            ),
            Err(fault) => Err(self.fault_of(&fault)),
        }
    }

    fn read_under(&self, _lock: &File, path: &str) -> Result<Option<Vec<u8>>, FileFault> {
        self.read_if_there(path)
    }

    fn is_same(&self, path: &str, other: &str) -> bool {
        are_same(self.rt, path, other)
    }

    fn is_free(&self, path: &str) -> bool {
        free_at(self.rt, path).is_ok()
    }

    fn is_found(&self, path: &str) -> bool {
        leads_to_something(self.rt, path)
    }

    fn lock(&mut self, _folder: &str, path: &str) -> Result<File, FileFault> {
        match locked(self.rt, path) {
            Ok(lock) => Ok(lock),
            Err(fault) => Err(self.fault_of(&fault)),
        }
    }

    fn disk(&mut self, _lock: &File, path: &str, old_path: &str) -> Result<FilePair, DiskFault> {
        match FilePair::open(self.rt, path, old_path) {
            Ok(disk) => Ok(disk),
            Err(fault) => Err(self.disk_fault_of(&fault)),
        }
    }

    fn close(&mut self, _lock: &File, _path: &str, _old_path: &str, disk: FilePair) {
        drop(disk);
    }

    fn counts_old(&self, disk: &FilePair) -> bool {
        disk.old_counts()
    }

    fn put(&mut self, _lock: &File, path: &str, bytes: &[u8]) -> Result<(), FileFault> {
        match place(self.rt, path, bytes) {
            Ok(()) => Ok(()),
            Err(fault) => Err(self.fault_of(&fault)),
        }
    }

    fn put_at(&mut self, path: &str, bytes: &[u8]) -> Result<(), FileFault> {
        match place(self.rt, path, bytes) {
            Ok(()) => Ok(()),
            Err(fault) => Err(self.fault_of(&fault)),
        }
    }
}
