//! The lock of the folder.

ghost use Rattle.std.specs.Prelude.{◌≡◌, IfOk, IfErr};
ghost use Rattle.cfarm_files.specs.Locking.{CoversFolder, lock_path};
ghost use Rattle.cfarm_files.specs.Placing.{GivesNoMore, Makes};
ghost use Rattle.cfarm_files.specs.Using.{UsesNone};
ghost use Rattle.cfarm_build_folder.specs.Disks.{IsRefusedAt};

use crate::error::BuildingError;
use cfarm_build_faults::BuildError;
use cfarm_files::{FileFault, Files, lock_path};
use std::alloc::Global;

/// The lock of the folder, if nobody has it, by the leave to take one.
pub fn locked<F: Files>(
    alloc: Global,
    folder: &str,
    files: &mut F,
) -> Result<F::Lock, BuildingError>
    requires leave { F.may_lock files.now }
    ensures covers { IfOk result (λ lock. CoversFolder (F.covers lock) folder.now) }
    ensures refused { IfErr result (IsRefusedAt (lock_path folder.now)) }
    ensures made { Makes (F.placed files.old) (F.placed files.new) (λ path. path ≡ lock_path folder.now) }
    ensures unused { UsesNone (F.used files.old) (F.used files.new) }
    ensures others { GivesNoMore (F.may_give files.old) (F.may_give files.new) }
{
    let Ok(path) = lock_path(alloc, folder) else {
        return Err(BuildingError::Build(BuildError::NoMemory));
    };
    match files.lock(folder, &path) {
        Ok(lock) => Ok(lock),
        Err(FileFault::NoMemory) => Err(BuildingError::Build(BuildError::NoMemory)),
        Err(FileFault::Refused(reason)) => Err(BuildingError::File(path, reason)),
    }
}
