//! The disks of the nodes are closed.

ghost use Rattle.std.specs.Prelude.{◌≤◌, length};
ghost use Rattle.cfarm_files.specs.Locking.{CoversFolder};
ghost use Rattle.cfarm_files.specs.Placing.{GivesNoMore, KeepsFolder};
ghost use Rattle.cfarm_build_folder.specs.Used.{ClosesAll};

use crate::paths::JournalPaths;
use cfarm_files::Files;

/// Closes these disks, the first that of node 0, each as it is now.
pub fn close_disks<F: Files>(
    paths: &JournalPaths<'_>,
    files: &mut F,
    lock: &F::Lock,
    disks: Vec<F::Disk>,
)
    requires locked { CoversFolder (F.covers lock.now) paths.now.folder.now }
    requires there { length disks.items ≤ length paths.now.nodes.items }
    ensures closes { ClosesAll F.Files paths.now.folder.now files disks.items }
    ensures kept { KeepsFolder (F.placed files.old) (F.placed files.new) }
    ensures others { GivesNoMore (F.may_give files.old) (F.may_give files.new) }
{
    let mut node = 0usize;
    for disk in disks {
        paths.close(node, files, lock, disk);
        node += 1;
    }
}
