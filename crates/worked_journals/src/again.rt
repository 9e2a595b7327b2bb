//! Journals that are made of what others list.

use acceptor_log::{Log, read};
use acceptor_log_form::{Header, Record};
use durable_model::{Disk, MemoryDisk};
use std::alloc::Global;
use worked_row_files::{fine, some};

/// Whether the records that the bytes stand for, appended to a new journal, make those bytes again.
pub fn is_made_again(alloc: Global, header: &Header, bytes: &[u8]) -> Option<bool> {
    let found = fine!(read(alloc, header, bytes));
    let calls = found.records.len().saturating_mul(4).saturating_add(3);
    let disk = fine!(MemoryDisk::new(alloc, calls, bytes.len().saturating_mul(2)));
    let mut disk = some!(appended(alloc, disk, header, found.records.as_slice()));
    let made = fine!(disk.read(alloc));
    Some(made.as_slice() == bytes)
}

/// A new journal of these records on the disk.
fn appended<D: Disk + Drop>(
    alloc: Global,
    disk: D,
    header: &Header,
    records: &[Record],
) -> Option<D> {
    let Ok(mut log) = Log::create(alloc, disk, header) else {
        return None;
    };
    for entry in records {
        if log.append(entry).is_err() {
            return None;
        }
    }
    Some(log.into_disk())
}
