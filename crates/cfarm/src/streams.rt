//! The three streams that a program is given.

use std::fs::File;
use std::io;
use std::os::fd::AsRawFd;

/// The number of standard error, the last of the three.
const LAST: i32 = 2;

/// What is open in the place of streams that were closed as the program began, so that no file of its own gets their numbers: nothing is read
/// there, and a write fails.
#[derive(Drop)]
pub struct Streams {
    _first: Option<File>,
    _second: Option<File>,
    _third: Option<File>,
}

/// A file that can be read alone: no bytes, or where that is not there the root.
fn unwritable(rt: &HostRuntime) -> io::Result<File> {
    match File::open(rt, "/dev/null") {
        Ok(file) => Ok(file),
        Err(_) => File::open(rt, "/"),
    }
}

/// A file in the place of the first of the streams that are closed; none where none is. A file gets the lowest number that is free.
fn stand_in(rt: &HostRuntime) -> Option<File> {
    match unwritable(rt) {
        Ok(file) if file.as_raw_fd() <= LAST => Some(file),
        _ => None,
    }
}

impl Streams {
    /// Opens what stands in for the streams that are closed. It is called before any other file is opened, and kept to the end.
    pub fn made_sure(rt: &HostRuntime) -> Streams {
        Streams {
            _first: stand_in(rt),
            _second: stand_in(rt),
            _third: stand_in(rt),
        }
    }
}
