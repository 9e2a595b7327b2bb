//! The two files of each node of a farm: their paths, and the disks over them.

ghost use Rattle.std.specs.Prelude.{◌≡◌, ◌<◌, length, IfOk, IfErr, IfSome};
ghost use Rattle.cfarm_files.specs.Locking.{CoversFolder};
ghost use Rattle.cfarm_files.specs.Placing.{GivesNoMore, KeepsFolder, Makes};
ghost use Rattle.cfarm_build_folder.specs.Disks.{IsJournalOf, IsOfNode, IsRefusedAtEither, IsRefusedOf};
ghost use Rattle.cfarm_build_folder.specs.Named.{AreNamed, ArePathsOf};
ghost use Rattle.cfarm_build_folder.specs.Used.{ClosesNode, OpensNode};
ghost use Rattle.cfarm_options.specs.Sizes.{count_of};

use crate::error::BuildingError;
use crate::placing::refused_at;
use cfarm_build_faults::BuildError;
use cfarm_files::{DiskFault, Files};
use cfarm_options::{BuildOptions, journal_path, old_journal_path};
use std::alloc::Global;

/// The paths of the two files of a node: of the journal, and of one of the first version.
fn paths_of(alloc: Global, folder: &str, node: usize) -> Option<(String, String)>
    ensures { IfSome result (ArePathsOf folder.now node) }
{
    match (
        journal_path(alloc, folder, node),
        old_journal_path(alloc, folder, node),
    ) {
        (Ok(path), Ok(old_path)) => Some((path, old_path)),
        _ => None,
    }
}

/// What is told of a fault of the disks over these two files.
fn told_of(alloc: Global, fault: DiskFault, path: &str, old_path: &str) -> BuildingError
    ensures { IsRefusedAtEither path.now old_path.now result }
{
    match fault {
        DiskFault::NoMemory => BuildingError::Build(BuildError::NoMemory),
        DiskFault::Old(reason) => refused_at(alloc, old_path, reason),
        DiskFault::New(reason) => refused_at(alloc, path, reason),
    }
}

/// The paths of the two files of each node, in the order of the nodes. They are there before a disk is opened, so that no disk stays open for
/// want of memory.
#[derive(Drop)]
pub struct JournalPaths<'a> {
    pub folder: &'a str,
    pub nodes: Vec<(String, String)>,
    pub ghost named: { AreNamed folder.now nodes.items },
    pub ghost some: { 0 < length nodes.items },
}

impl<'a> JournalPaths<'a> {
    /// Those of the nodes that are asked for, in the folder of a build; none where there is no memory for them.
    pub fn of(alloc: Global, options: BuildOptions<'a>) -> Option<JournalPaths<'a>>
        ensures folder { IfSome result (λ paths. paths.folder.now ≡ options.entry.folder.now) }
        ensures count { IfSome result (λ paths. length paths.nodes.items ≡ count_of options.entry.nodes) }
    {
        let folder = options.folder;
        let count = options.nodes.count();
        let mut nodes = Vec::new(alloc);
        for node in 0..usize::from(count) {
            let Some(paths) = paths_of(alloc, folder, node) else {
                return None;
            };
            match nodes.push(paths) {
                Ok(()) => {}
                Err(_) => return None,
            }
        }
        Some(JournalPaths { folder, nodes })
    }

    /// Those of this node.
    fn at(&self, node: usize) -> &(String, String)
        requires { node < length self.now.nodes.items }
        ensures { ArePathsOf self.now.folder.now node result.now }
    {
        &self.nodes[node]
    }

    /// Opens the disks of this node.
    pub(crate) fn open<F: Files>(
        &self,
        alloc: Global,
        node: usize,
        files: &mut F,
        lock: &F::Lock,
    ) -> Result<F::Disk, BuildingError>
        requires there { node < length self.now.nodes.items }
        requires locked { CoversFolder (F.covers lock.now) self.now.folder.now }
        ensures given { IfOk result (IsOfNode (F.may_give files.old) self.now.folder.now node) }
        ensures refused { IfErr result (IsRefusedOf self.now.folder.now node) }
        ensures made { Makes (F.placed files.old) (F.placed files.new) (IsJournalOf self.now.folder.now node) }
        ensures opens { OpensNode F.Files self.now.folder.now files node result }
        ensures others { GivesNoMore (F.may_give files.old) (F.may_give files.new) }
    {
        let (path, old_path) = self.at(node);
        match files.disk(lock, path, old_path) {
            Ok(disk) => Ok(disk),
            Err(fault) => Err(told_of(alloc, fault, path, old_path)),
        }
    }

    /// Closes the disks of this node. It takes no memory.
    pub fn close<F: Files>(&self, node: usize, files: &mut F, lock: &F::Lock, disk: F::Disk)
        requires there { node < length self.now.nodes.items }
        requires locked { CoversFolder (F.covers lock.now) self.now.folder.now }
        ensures closes { ClosesNode F.Files self.now.folder.now files node disk }
        ensures kept { KeepsFolder (F.placed files.old) (F.placed files.new) }
        ensures others { GivesNoMore (F.may_give files.old) (F.may_give files.new) }
    {
        let (path, old_path) = self.at(node);
        files.close(lock, path, old_path, disk);
    }
}
