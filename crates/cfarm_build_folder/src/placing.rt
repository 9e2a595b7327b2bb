//! The linked program in its file, and before it the bundle in the file that is given for it.

ghost use Rattle.std.specs.Prelude.{◌≡◌, OnOk, OnErr, IfErr, is_some, option_copied};
ghost use Rattle.std.specs.String.{string_bytes};
ghost use Rattle.cfarm_files.specs.Locking.{CoversFolder};
ghost use Rattle.cfarm_files.specs.Placing.{MayPlace, Places};
ghost use Rattle.cfarm_files.specs.Using.{UsesNone};
ghost use Rattle.cfarm_options.specs.Paths.{linked_path};
ghost use Rattle.cfarm_build_folder.specs.Disks.{IsRefusedAt};
ghost use Rattle.cfarm_build_folder.specs.Done.{HasNotPutBoth, HasPutBoth, HasPutBundle, MayHavePutBundle};
ghost use Rattle.cfarm_build_folder.specs.Putting.{IsUnbundled};

use crate::error::BuildingError;
use cfarm_build_faults::BuildError;
use cfarm_files::{FileFault, Files, Reason};
use cfarm_options::{BuildOptions, linked_path};
use std::alloc::Global;

/// What is told of a fault of the file of this path.
fn told_at(fault: FileFault, path: String) -> BuildingError
    ensures { IsRefusedAt (string_bytes path) result }
{
    match fault {
        FileFault::NoMemory => BuildingError::Build(BuildError::NoMemory),
        FileFault::Refused(reason) => BuildingError::File(path, reason),
    }
}

/// Puts the bytes of the program in its file.
fn place<F: Files>(
    alloc: Global,
    folder: &str,
    files: &mut F,
    lock: &F::Lock,
    program: &[u8],
) -> Result<(), BuildingError>
    requires locked { CoversFolder (F.covers lock.now) folder.now }
    ensures put { OnOk result (Places (F.placed files.old) (F.placed files.new) (linked_path folder.now) program.now) }
    ensures refused { IfErr result (IsRefusedAt (linked_path folder.now)) }
    ensures whole { OnErr result (MayPlace (F.placed files.old) (F.placed files.new) (linked_path folder.now) program.now) }
    ensures unused { UsesNone (F.used files.old) (F.used files.new) }
{
    let Ok(path) = linked_path(alloc, folder) else {
        return Err(BuildingError::Build(BuildError::NoMemory));
    };
    match files.put(lock, &path, program) {
        Ok(()) => Ok(()),
        Err(fault) => Err(told_at(fault, path)),
    }
}

/// That the file of this path is refused, for this reason.
pub(crate) fn refused_at(alloc: Global, path: &str, reason: Reason) -> BuildingError
    ensures { IsRefusedAt path.now result }
{
    match path.to_string(alloc) {
        Ok(path) => BuildingError::File(path, reason),
        Err(_) => BuildingError::Build(BuildError::NoMemory),
    }
}

/// Puts the bytes of the bundle in the file of this path.
fn place_bundle<F: Files>(
    alloc: Global,
    path: &str,
    files: &mut F,
    bundle: &[u8],
) -> Result<(), BuildingError>
    ensures put { OnOk result (Places (F.placed files.old) (F.placed files.new) path.now bundle.now) }
    ensures refused { IfErr result (IsRefusedAt path.now) }
    ensures whole { OnErr result (MayPlace (F.placed files.old) (F.placed files.new) path.now bundle.now) }
    ensures unused { UsesNone (F.used files.old) (F.used files.new) }
{
    match files.put_at(path, bundle) {
        Ok(()) => Ok(()),
        Err(FileFault::NoMemory) => Err(BuildingError::Build(BuildError::NoMemory)),
        Err(FileFault::Refused(reason)) => Err(refused_at(alloc, path, reason)),
    }
}

/// Puts the bundle in its file, where a path is given. There is a bundle where one is.
fn place_given<F: Files>(
    alloc: Global,
    path: Option<&str>,
    files: &mut F,
    bundle: &Option<Vec<u8>>,
) -> Result<(), BuildingError>
    requires made { is_some bundle.now ≡ is_some path }
    ensures put { OnOk result (HasPutBundle F.placed files (option_copied path.entry) bundle.now) }
    ensures refused { IfErr result (IsUnbundled (option_copied path.entry)) }
    ensures whole { OnErr result (MayHavePutBundle F.placed files (option_copied path.entry) bundle.now) }
    ensures unused { UsesNone (F.used files.old) (F.used files.new) }
{
    let Some(path) = path else {
        return Ok(());
    };
    match bundle {
        Some(bytes) => place_bundle(alloc, path, files, bytes),
        None => unreachable!(),
    }
}

/// Puts the bundle in its file, where one is asked for, and then the program in its own.
pub fn place_both<F: Files>(
    alloc: Global,
    options: BuildOptions<'_>,
    files: &mut F,
    lock: &F::Lock,
    program: &[u8],
    bundle: &Option<Vec<u8>>,
) -> Result<(), BuildingError>
    requires locked { CoversFolder (F.covers lock.now) options.folder.now }
    requires made { is_some bundle.now ≡ is_some options.bundle }
    ensures put { OnOk result (HasPutBoth F.placed files options.entry bundle.now program.now) }
    ensures refused { IfErr result (HasNotPutBoth F.placed files options.entry bundle.now program.now) }
    ensures unused { UsesNone (F.used files.old) (F.used files.new) }
{
    match place_given(alloc, options.bundle, files, bundle) {
        Ok(()) => {}
        Err(fault) => return Err(fault),
    }
    match place(alloc, options.folder, files, lock, program) {
        Ok(()) => Ok(()),
        Err(fault) => Err(fault),
    }
}
