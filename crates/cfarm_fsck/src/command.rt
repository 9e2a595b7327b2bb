//! The whole command.

ghost use Rattle.std.specs.Prelude.{◌≡◌, ◌≤◌, length, IfOk, IfErr};
ghost use Rattle.cfarm_fsck_chosen.specs.Linking.{IsFirstUnchained};
ghost use Rattle.cfarm_fsck.specs.Opened.{IsToldOfOpened};
ghost use Rattle.cfarm_fsck.specs.Told.{IsToldOrRefused, IsFaultOf, Opens};

use crate::error::FsckError;
use crate::journals::journals_of;
use crate::printing::{print_folder, print_front};
use acceptor_log_form::Record;
use cfarm_fsck_chosen::unchained_in;
use cfarm_fsck_journals::NodeFiles;
use farm_nodes_open_seats::{OpenFault, rooms_of};
use lang_base::{Named, Program};
use paxos_core_world::kept::Kept;
use paxos_core_world::quorum::Quorums;
use rooms_hall::{Hall, Naming};
use rtl_language::Function;
use std::alloc::Global;
use std::io::Write;
use std::sync::Wait;
use std::thread::Threads;

/// How many functions there are.
fn functions_of(program: &Program<Function>) -> u16
    requires { length program.now.functions ≤ 64 }
    ensures { result ≡ length program.now.functions }
{
    program.functions.len() as u16
}

/// The journals of a folder, and what each node has kept of each room.
fn opened<H: Naming, R: Threads + Wait + Sync>(
    rt: &R,
    alloc: Global,
    hall: &Hall<H>,
    digest: &[u8; 32],
    program: &Program<Function>,
    quorums: Quorums,
    files: &[NodeFiles],
) -> Result<(Vec<(usize, Vec<Record>)>, Vec<Vec<Kept>>), OpenFault>
    requires size { length files.now ≡ quorums.nodes }
    requires functions { length program.now.functions ≤ 64 }
    ensures opens { IfOk result (λ found. Opens quorums digest.now program.now files.now found.0.items found.1.items) }
    ensures refused { IfErr result (IsFaultOf quorums digest.now program.now files.now) }
{
    let workers = usize::from(quorums.nodes());
    let functions = functions_of(program);
    let journals = match journals_of(alloc, digest, quorums, files) {
        Ok(journals) => journals,
        Err(fault) => return Err(fault),
    };
    let before = journals.as_slice();
    match rooms_of::<usize, H, R>(rt, alloc, hall, digest, functions, workers, before, quorums) {
        Ok((kept, _seats)) => Ok((journals, kept)),
        Err(fault) => Err(fault),
    }
}

/// Tells what stands in journals of which this function's chosen offers are the first that do not go on one from the other.
fn tell_unchained<W: Write>(
    alloc: Global,
    functions: &[Named<Function>],
    accept: u8,
    journals: &[(usize, Vec<Record>)],
    kept: &[Vec<Kept>],
    function: usize,
    out: &mut W,
) -> Result<(), FsckError>
    requires few { length functions.now ≤ 64 }
    requires first { IsFirstUnchained accept journals.now kept.now functions.now function }
    ensures { IsToldOfOpened accept functions.now journals.now kept.now result (W.contents out.old) (W.contents out.new) }
{
    match print_front(alloc, functions, accept, journals, kept, out) {
        Ok(()) => Err(FsckError::Unchained(function)),
        Err(fault) => Err(fault),
    }
}

/// Tells what stands in journals that a farm opens over, which list these records and leave these kept parts.
#[tactic(auto, using(crate::proofs::Opened::whole, crate::proofs::Opened::kept_bytes))]
fn tell_opened<W: Write>(
    alloc: Global,
    functions: &[Named<Function>],
    accept: u8,
    journals: &[(usize, Vec<Record>)],
    kept: &[Vec<Kept>],
    out: &mut W,
) -> Result<(), FsckError>
    requires { length functions.now ≤ 64 }
    ensures { IsToldOfOpened accept functions.now journals.now kept.now result (W.contents out.old) (W.contents out.new) }
{
    let Ok(unchained) = unchained_in(alloc, accept, journals, kept, functions) else {
        return Err(FsckError::NoMemory);
    };
    match unchained {
        None => print_folder(alloc, functions, accept, journals, kept, out),
        Some(number) => { tell_unchained(alloc, functions, accept, journals, kept, number, out) }
    }
}

/// Reads the journals of a folder as a farm with these quorums over this program would, whose text has this digest, and tells of each node how
/// much its journal has, and of each room the vote that was chosen there, if an accept quorum's last votes show one. The first function whose
/// chosen offers do not go on one from the other is told. Offers are checked again, by as many threads as there are nodes. The caller buffers; all is flushed.
pub fn fsck<H: Naming, R: Threads + Wait + Sync, W: Write>(
    rt: &R,
    alloc: Global,
    hall: &Hall<H>,
    digest: &[u8; 32],
    program: &Program<Function>,
    quorums: Quorums,
    files: &[NodeFiles],
    out: &mut W,
) -> Result<(), FsckError>
    requires size { length files.now ≡ quorums.nodes }
    requires functions { length program.now.functions ≤ 64 }
    ensures { IsToldOrRefused quorums digest.now program.now files.now result (W.contents out.old) (W.contents out.new) }
{
    let (journals, kept) = match opened::<H, R>(rt, alloc, hall, digest, program, quorums, files) {
        Ok(found) => found,
        Err(fault) => return Err(FsckError::Disks(fault)),
    };
    tell_opened(
        alloc,
        program.functions.as_slice(),
        quorums.accept(),
        journals.as_slice(),
        kept.as_slice(),
        out,
    )
}
