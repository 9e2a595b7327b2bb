//! The lock of a folder: a file in it that one process has at a time.

ghost use Rattle.std.specs.Prelude.{◌≡◌, IfOk};
ghost use Rattle.std.specs.String.{string_bytes};
ghost use Rattle.cfarm_files.specs.Locking.{lock_path};

use crate::looking::leads_to_free;
use std::alloc::{AllocError, Global};
use std::fs::{File, OpenOptions};
use std::io;
use std::path::Path;

/// The file that is locked while somebody has the folder.
pub fn lock_path(alloc: Global, folder: &str) -> Result<String, AllocError>
    ensures { IfOk result (λ path. string_bytes path ≡ lock_path folder.now) }
{
    let path = Path::new(folder).join(alloc, "cfarm.lock")?;
    Ok(path.into_string())
}

/// The file of this path, locked; it is made, empty, where there is none. What is there and leads to no plain file is refused. It is opened for
/// reading too, so that a pipe that takes its name in between is not waited for.
pub(crate) fn locked(rt: &HostRuntime, path: &str) -> io::Result<File> {
    leads_to_free(rt, path)?;
    let mut options = OpenOptions::new();
    let file = options.read(true).write(true).create(true).open(rt, path)?;
    match file.try_lock() {
        Ok(()) => Ok(file),
        Err(fault) => Err(io::Error::from(fault)),
    }
}
