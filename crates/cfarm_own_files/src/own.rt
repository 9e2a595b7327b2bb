//! Whether a path leads to a file of the build's.

ghost use Rattle.std.specs.Prelude.{◌≡◌, IfOk, true, false};
ghost use Rattle.std.specs.String.{string_bytes};
ghost use Rattle.cfarm_own_files.specs.Own.{IsJournal, IsNoJournalBelow, IsNoOwn, IsNoProgram, IsNotOfNode, IsOfNode, IsOwn, IsProgram, beside};

use cfarm_files::{Files, lock_path};
use cfarm_options::{journal_path, linked_path, old_journal_path};
use std::alloc::{AllocError, Global};

/// How many nodes a farm has at most.
const NODES: usize = 7;

/// The path of what is written beside the file of this path.
pub(crate) fn beside(alloc: Global, path: &str) -> Result<String, AllocError>
    ensures { IfOk result (λ name. string_bytes name ≡ beside path.now) }
{
    format!(in alloc; "{path}.new")
}

/// Whether the path leads to a journal of this node.
fn is_of_node<F: Files>(
    alloc: Global,
    files: &F,
    folder: &str,
    node: usize,
    path: &str,
) -> Result<bool, AllocError>
    ensures own { IfOk result (λ is. is ≡ true → IsOfNode F.Files files.now folder.now path.now node) }
    ensures none { IfOk result (λ is. is ≡ false → IsNotOfNode F.Files files.now folder.now path.now node) }
{
    let journal = match journal_path(alloc, folder, node) {
        Ok(journal) => journal,
        Err(fault) => return Err(fault),
    };
    let old = match old_journal_path(alloc, folder, node) {
        Ok(old) => old,
        Err(fault) => return Err(fault),
    };
    Ok(files.is_same(path, &journal) || files.is_same(path, &old))
}

/// Whether the path leads to a journal of a node.
fn is_journal<F: Files>(
    alloc: Global,
    files: &F,
    folder: &str,
    path: &str,
) -> Result<bool, AllocError>
    ensures own { IfOk result (λ is. is ≡ true → IsJournal F.Files files.now folder.now path.now) }
    ensures none { IfOk result (λ is. is ≡ false → IsNoJournalBelow F.Files files.now folder.now path.now 7) }
{
    for node in 0..NODES {
        match is_of_node(alloc, files, folder, node, path) {
            Ok(false) => {}
            found => return found,
        }
    }
    Ok(false)
}

/// Whether the path leads to the lock's file, the program's or the one beside that.
fn is_program<F: Files>(
    alloc: Global,
    files: &F,
    folder: &str,
    path: &str,
) -> Result<bool, AllocError>
    ensures own { IfOk result (λ is. is ≡ true → IsProgram F.Files files.now folder.now path.now) }
    ensures none { IfOk result (λ is. is ≡ false → IsNoProgram F.Files files.now folder.now path.now) }
{
    let lock = match lock_path(alloc, folder) {
        Ok(lock) => lock,
        Err(fault) => return Err(fault),
    };
    let linked = match linked_path(alloc, folder) {
        Ok(linked) => linked,
        Err(fault) => return Err(fault),
    };
    match beside(alloc, &linked) {
        Ok(next) => Ok(
            files.is_same(path, &lock)
                || files.is_same(path, &linked)
                || files.is_same(path, &next),
        ),
        Err(fault) => Err(fault),
    }
}

/// Whether the path leads to a file that a build has in this folder, of however many nodes it is.
pub(crate) fn is_own<F: Files>(
    alloc: Global,
    files: &F,
    folder: &str,
    path: &str,
) -> Result<bool, AllocError>
    ensures own { IfOk result (λ is. is ≡ true → IsOwn F.Files files.now folder.now path.now) }
    ensures none { IfOk result (λ is. is ≡ false → IsNoOwn F.Files files.now folder.now path.now) }
{
    match is_program(alloc, files, folder, path) {
        Ok(false) => is_journal(alloc, files, folder, path),
        found => found,
    }
}
