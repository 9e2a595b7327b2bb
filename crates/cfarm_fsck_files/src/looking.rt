//! The whole command.

ghost use Rattle.std.specs.Prelude.{◌≡◌, ◌≤◌, length};
ghost use Rattle.std.specs.Arc.{arc_value};
ghost use Rattle.std.specs.String.{string_bytes};
ghost use Rattle.cfarm_fsck_files.specs.Looking.{Found, IsSaidOfFault, OfFiles, OfLocked, build_fault, unread_fault, with_lines};
ghost use Rattle.cfarm_fsck_files.specs.Unlinked.{IsReady, IsWithin};
ghost use Rattle.cfarm_fsck_files.specs.Saying.{LookedOver};
ghost use Rattle.cfarm_program_status.specs.Reading.{Says};
ghost use Rattle.cfarm_program_status.specs.Trace.{shown};
ghost use Rattle.cfarm_files.specs.Locking.{CoversFolder, lock_path};
ghost use Rattle.cfarm_files.specs.Placing.{Makes};
ghost use Rattle.cfarm_files.specs.Using.{UsesNone};
ghost use Rattle.cfarm_program_status.specs.Telling.{IsToldAs};

use crate::lost::lost_lines;
use crate::reading::read_files;
use crate::unchained::tell_unchained;
use crate::unread::Unread;
use cfarm_build_faults::{BuildError, ToldFault};
use cfarm_files::{FileFault, Files, lock_path};
use cfarm_fsck::{FsckError, fsck};
use cfarm_fsck_journals::NodeFiles;
use cfarm_output::{ErrorLines, Paced};
use cfarm_program_status::{UNWRITTEN, tell, tell_no_memory, tell_unread};
use farm_nodes_source::{Source, prepare};
use paxos_core_world::quorum::Quorums;
use rooms_hall::{Hall, Naming};
use std::alloc::Global;
use std::io::Write;
use std::sync::Wait;
use std::thread::Threads;

/// Tells why nothing is built, by the line and with the status of `build`.
#[tactic(auto, using(crate::proofs::Statuses::in_table))]
fn tell_build<E: ErrorLines>(err: &mut E, fault: BuildError) -> u8
    ensures told { IsToldAs (build_fault fault) result (E.contents err.old) (E.contents err.new) }
    ensures table { result ≤ 7 }
{
    let status = fault.status();
    tell(err, ToldFault(&fault), status)
}

/// Tells why a folder is not told, with these lines in front of a function that is never linked.
#[tactic(auto, using(crate::proofs::Unlinked::said_disks, crate::proofs::Unlinked::said_no_memory, crate::proofs::Unlinked::said_unwritten))]
fn tell_error<E: ErrorLines>(
    alloc: Global,
    source: &Source,
    lines: String,
    err: &mut E,
    fault: FsckError,
) -> u8
    requires ready { IsReady source.now }
    requires within { IsWithin source.now fault }
    ensures told { IsSaidOfFault source.now (string_bytes lines) fault result (E.contents err.old) (E.contents err.new) }
    ensures table { result ≤ 7 }
{
    match fault {
        FsckError::Disks(fault) => tell_build(err, BuildError::Disks(fault)),
        FsckError::Unchained(function) => tell_unchained(alloc, source, function, lines, err),
        FsckError::NoMemory => tell_no_memory(err),
        FsckError::Write => tell(err, "write 701", UNWRITTEN),
    }
}

/// Tells why the files of its journals are not read.
fn tell_unread_file<E: ErrorLines>(err: &mut E, fault: &Unread) -> u8
    ensures told { IsToldAs (unread_fault fault.now) result (E.contents err.old) (E.contents err.new) }
    ensures table { result ≤ 7 }
{
    match fault {
        Unread::NoMemory => tell_no_memory(err),
        Unread::File(path, reason) => tell_unread(err, path.as_str(), FileFault::Refused(*reason)),
    }
}

/// Tells these lines, where there are some.
fn tell_lines<E: ErrorLines>(err: &mut E, lines: &str) -> u8
    ensures told { IsToldAs (with_lines lines.now) result (E.contents err.old) (E.contents err.new) }
    ensures table { result ≤ 7 }
{
    match lines.as_bytes() {
        [] => 0,
        [_first, _rest @ ..] => tell(err, lines, 0),
    }
}

/// Tells what stands in the files, which nodes have no journal, and which function is never linked.
#[tactic(auto, using(crate::proofs::Unlinked::within_of))]
fn tell_found<H: Naming, R: Threads + Wait + Sync, W: Write, E: ErrorLines>(
    rt: &R,
    alloc: Global,
    hall: &Hall<H>,
    source: &Source,
    quorums: Quorums,
    found: &[NodeFiles],
    out: &mut Paced<W>,
    err: &mut E,
) -> u8
    requires size { length found.now ≡ quorums.nodes }
    requires ready { IsReady source.now }
    ensures does { Says W.contents E.contents (Found quorums source.now found.now) (shown result out err) }
    ensures table { result ≤ 7 }
{
    let begun = &*source.translated;
    let Ok(lines) = lost_lines(alloc, found) else {
        return tell_no_memory(err);
    };
    match fsck::<H, R, Paced<W>>(rt, alloc, hall, &source.digest, begun, quorums, found, out) {
        Ok(()) => tell_lines(err, lines.as_str()),
        Err(fault) => tell_error(alloc, source, lines, err, fault),
    }
}

/// Reads the files of the folder under its lock, and tells what stands in them.
fn tell_files<H: Naming, R: Threads + Wait + Sync, F: Files, W: Write, E: ErrorLines>(
    rt: &R,
    alloc: Global,
    hall: &Hall<H>,
    source: &Source,
    quorums: Quorums,
    folder: &str,
    files: &F,
    lock: &F::Lock,
    out: &mut Paced<W>,
    err: &mut E,
) -> u8
    requires locked { CoversFolder (F.covers lock.now) folder.now }
    requires ready { IsReady source.now }
    ensures does { Says W.contents E.contents (OfFiles F.Files folder.now quorums lock.now source.now) (shown result out err) }
    ensures table { result ≤ 7 }
{
    match read_files(alloc, folder, usize::from(quorums.nodes()), files, lock) {
        Ok(found) => tell_found(rt, alloc, hall, source, quorums, &found, out, err),
        Err(fault) => tell_unread_file(err, &fault),
    }
}

/// Takes the folder's lock, and holds it while the files are read and told.
fn tell_locked<H: Naming, R: Threads + Wait + Sync, F: Files, W: Write, E: ErrorLines>(
    rt: &R,
    alloc: Global,
    hall: &Hall<H>,
    source: &Source,
    quorums: Quorums,
    folder: &str,
    files: &mut F,
    out: &mut Paced<W>,
    err: &mut E,
) -> u8
    requires leave { F.may_lock files.now }
    requires ready { IsReady source.now }
    ensures does { Says W.contents E.contents (OfLocked F.Files folder.now quorums source.now) (shown result out err) }
    ensures made { Makes (F.placed files.old) (F.placed files.new) (λ path. path ≡ lock_path folder.now) }
    ensures unused { UsesNone (F.used files.old) (F.used files.new) }
    ensures table { result ≤ 7 }
{
    let Ok(path) = lock_path(alloc, folder) else {
        return tell_no_memory(err);
    };
    let lock = match files.lock(folder, &path) {
        Ok(lock) => lock,
        Err(fault) => return tell_unread(err, path.as_str(), fault),
    };
    tell_files(
        rt, alloc, hall, source, quorums, folder, &*files, &lock, out, err,
    )
}

/// `fsck`: looks through the journals of a folder as a farm with these quorums over the program of a C text would open them, and tells what it
/// finds, or the fault with which `build` would refuse the text or the folder. The text comes first, then the folder's lock, which is taken once
/// and held to the end, then the files, which are read under it. Offers are checked again, by threads of `rt`.
#[tactic(auto, using(crate::proofs::Unlinked::ready_of))]
pub fn look_through<H: Naming, R: Threads + Wait + Sync, F: Files, W: Write, E: ErrorLines>(
    rt: &R,
    alloc: Global,
    hall: &Hall<H>,
    text: &[u8],
    quorums: Quorums,
    folder: &str,
    files: &mut F,
    out: &mut Paced<W>,
    err: &mut E,
) -> u8
    requires leave { F.may_lock files.now }
    ensures does { Says W.contents E.contents (LookedOver F.Files files folder.now quorums text.now) (shown result out err) }
    ensures table { result ≤ 7 }
{
    match prepare(alloc, text) {
        Ok(source) => tell_locked(rt, alloc, hall, &source, quorums, folder, files, out, err),
        Err(fault) => tell_build(err, BuildError::Source(fault)),
    }
}
