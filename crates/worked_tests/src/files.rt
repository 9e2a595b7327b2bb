//! A disk over a real file.

use crate::asks::{Ask, are_answered};
use durable_model::{DiskError, FileDisk};
use std::fs;

const FOLDER: &str = "worked_disk_files";

const PATH: &str = "worked_disk_files/node0.cfj";

const BESIDE: &str = "worked_disk.cfj";

const OTHER: &str = "worked_disk_other.cfj";

/// Whether a new file's disk answers so.
fn are_answered_new(rt: &HostRuntime, path: &str, asks: &[Ask<'_>]) -> bool {
    match FileDisk::create(rt, path) {
        Ok(mut disk) => are_answered(rt.alloc(), &mut disk, asks),
        Err(_) => false,
    }
}

/// Whether the disk of a file that is there answers so.
fn are_answered_again(rt: &HostRuntime, path: &str, asks: &[Ask<'_>]) -> bool {
    match FileDisk::open(rt, path) {
        Ok(mut disk) => are_answered(rt.alloc(), &mut disk, asks),
        Err(_) => false,
    }
}

/// What is written is read again, and once the file was opened again.
fn is_read_again(rt: &HostRuntime) -> bool {
    let asks = [
        Ask::Read(b""),
        Ask::Write(0, b"abcdef"),
        Ask::Write(2, b"XY"),
        Ask::Sync,
        Ask::Write(8, b"z"),
        Ask::Read(b"abXYef\0\0z"),
        Ask::NoWrite(u64::MAX, b"z", DiskError::NoMemory),
        Ask::Failures(0),
    ];
    let again = [Ask::Read(b"abXYef\0\0z"), Ask::Failures(0)];
    if fs::create_dir(rt, FOLDER).is_err() || FileDisk::open(rt, PATH).is_ok() {
        return false;
    }
    let is_read = are_answered_new(rt, PATH, &asks) && FileDisk::create(rt, PATH).is_err();
    is_read && are_answered_again(rt, PATH, &again) && fs::remove_dir_all(rt, FOLDER).is_ok()
}

/// Whether a file in the folder of the run is made and synced.
fn is_made_beside(rt: &HostRuntime) -> bool {
    are_answered_new(rt, BESIDE, &[Ask::Sync]) && fs::remove_file(rt, BESIDE).is_ok()
}

/// Somebody else writes to the file of the disk, which is a failure.
fn is_failure(rt: &HostRuntime, disk: &mut FileDisk) -> bool {
    let asks = [Ask::Write(0, b"abc"), Ask::Read(b"abc")];
    are_answered(rt.alloc(), disk, &asks)
        && fs::write(rt, OTHER, b"abd").is_ok()
        && are_answered(rt.alloc(), disk, &[Ask::NoRead, Ask::Failures(1)])
}

/// What somebody else wrote is read once the file was opened again.
fn is_seen(rt: &HostRuntime) -> bool {
    let is_told = match FileDisk::create(rt, OTHER) {
        Ok(mut disk) => is_failure(rt, &mut disk),
        Err(_) => false,
    };
    let again = [Ask::Read(b"abd"), Ask::Failures(0)];
    is_told && are_answered_again(rt, OTHER, &again) && fs::remove_file(rt, OTHER).is_ok()
}

#[test]
fn what_is_written_is_read_again(rt: HostRuntime) {
    let _ = fs::remove_dir_all(&rt, FOLDER);
    assert!(rt; is_read_again(&rt));
}

#[test]
fn a_file_in_the_folder_of_the_run(rt: HostRuntime) {
    let _ = fs::remove_file(&rt, BESIDE);
    assert!(rt; is_made_beside(&rt));
}

#[test]
fn what_somebody_else_wrote_is_a_failure(rt: HostRuntime) {
    let _ = fs::remove_file(&rt, OTHER);
    assert!(rt; is_seen(&rt));
}
