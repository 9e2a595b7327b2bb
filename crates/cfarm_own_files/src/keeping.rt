//! What is kept by a command that reads one file and puts another.

ghost use Rattle.std.specs.Prelude.{◌≡◌, IfOk, false, true};
ghost use Rattle.cfarm_own_files.specs.Kept.{IsKept, IsNotKept};

use crate::own::beside;
use cfarm_files::Files;
use cfarm_options::is_taken;
use std::alloc::{AllocError, Global};

/// Whether what is put at the second path takes the place of the file of the first, by whatever name, or, by its name, of a file of a build's.
pub fn is_kept<F: Files>(
    alloc: Global,
    files: &F,
    read: &str,
    path: &str,
) -> Result<bool, AllocError>
    ensures kept { IfOk result (λ is. is ≡ true → IsKept F.Files files.now read.now path.now) }
    ensures free { IfOk result (λ is. is ≡ false → IsNotKept F.Files files.now read.now path.now) }
{
    let next = match beside(alloc, path) {
        Ok(next) => next,
        Err(fault) => return Err(fault),
    };
    if is_taken(read, path) || files.is_same(read, path) || files.is_same(read, &next) {
        return Ok(true);
    }
    Ok(false)
}
