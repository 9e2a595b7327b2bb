//! The disks of the nodes are opened.

ghost use Rattle.std.specs.Prelude.{IfOk, IfErr};
ghost use Rattle.cfarm_files.specs.Locking.{CoversFolder};
ghost use Rattle.cfarm_files.specs.Placing.{GivesNoMore, Makes};
ghost use Rattle.cfarm_build_folder.specs.Asked.{AreOpened, HasNoDiskAt};
ghost use Rattle.cfarm_build_folder.specs.Disks.{IsJournal};

use crate::closing::close_disks;
use crate::error::BuildingError;
use crate::paths::JournalPaths;
use cfarm_build_faults::BuildError;
use cfarm_files::Files;
use std::alloc::Global;

/// How many of the nodes have a journal of the first version that counts.
pub fn old_among<F: Files>(files: &F, disks: &[F::Disk]) -> usize {
    let mut old = 0usize;
    for disk in disks {
        if files.counts_old(disk) {
            old = old.saturating_add(1);
        }
    }
    old
}

/// The disks of all nodes, in their order: the first that is refused is told, and then those before it are closed.
pub fn open_disks<F: Files>(
    alloc: Global,
    paths: &JournalPaths<'_>,
    files: &mut F,
    lock: &F::Lock,
) -> Result<Vec<F::Disk>, BuildingError>
    requires locked { CoversFolder (F.covers lock.now) paths.now.folder.now }
    ensures given { IfOk result (λ disks. AreOpened F.Files paths.now files disks.items) }
    ensures refused { IfErr result (HasNoDiskAt F.Files paths.now files) }
    ensures made { Makes (F.placed files.old) (F.placed files.new) (IsJournal paths.now.folder.now) }
    ensures others { GivesNoMore (F.may_give files.old) (F.may_give files.new) }
{
    let count = paths.nodes.len();
    let Ok(mut disks) = Vec::with_capacity(alloc, count) else {
        return Err(BuildingError::Build(BuildError::NoMemory));
    };
    for node in 0..count {
        let disk = match paths.open(alloc, node, files, lock) {
            Ok(disk) => disk,
            Err(fault) => {
                close_disks(paths, files, lock, disks);
                return Err(fault);
            }
        };
        match disks.push(disk) {
            Ok(()) => {}
            // There is capacity for all of them.
            Err(_) => unreachable!(),
        }
    }
    Ok(disks)
}
