//! Journals that are cut, or of which one byte is another.

ghost use Rattle.std.specs.Prelude.{◌<◌, length};

use crate::answers::line_of_farm;
use acceptor_log_form::LogError;
use durable_pair_memory::MemoryPair;
use paxos_core_world::quorum::Quorums;
use rooms_hall::{Hall, Naming};
use std::alloc::Global;
use std::sync::Wait;
use std::thread::Threads;
use worked_row_files::{owned, some};
use worked_whole::{
    FarmError, OpenFault, RoomFault, bytes_of_all, disk_of, opened_on, whole_disks,
};

/// What is done to a journal at a place.
#[derive(Clone, Copy)]
enum Damage {
    /// It ends there.
    Cut,
    /// One bit of the byte is the other.
    Bit,
    /// All bits of the byte are the others.
    Bits,
}

/// The journal with the damage at that place.
fn damaged(alloc: Global, journal: &[u8], at: usize, damage: Damage) -> Option<Vec<u8>> {
    let Ok(mut bytes) = journal.to_vec(alloc) else {
        return None;
    };
    match damage {
        Damage::Cut => bytes.truncate(at),
        Damage::Bit => *some!(bytes.get_mut(at)) ^= 1,
        Damage::Bits => *some!(bytes.get_mut(at)) ^= 255,
    }
    Some(bytes)
}

/// The disks of these journals, of which that of a node is another.
fn disks_with(
    alloc: Global,
    journals: &[Vec<u8>],
    node: usize,
    other: &[u8],
) -> Option<Vec<MemoryPair>> {
    let mut disks = Vec::new(alloc);
    for number in 0..journals.len() {
        let bytes = if number == node {
            other
        } else {
            journals[number].as_slice()
        };
        let Some(disk) = disk_of(alloc, bytes) else {
            return None;
        };
        if disks.push(disk).is_err() {
            return None;
        }
    }
    Some(disks)
}

/// Whether a farm may be refused so where the journal of this node is damaged.
fn is_answer(fault: &Option<FarmError>, node: usize) -> bool {
    match fault {
        Some(FarmError::Disks(OpenFault::Journal(number, fault))) => {
            usize::from(*number) == node
                && matches!(
                    fault,
                    LogError::NotAJournal | LogError::BadRecord | LogError::OtherSource
                )
        }
        Some(FarmError::Disks(OpenFault::Refused(number))) => usize::from(*number) == node,
        Some(FarmError::Disks(OpenFault::Room(_, fault))) => *fault == RoomFault::Unsettled,
        _ => false,
    }
}

/// Whether a farm opens over the disks, of which that of this node is damaged, or is refused as it may be; else what it tells.
fn answered<H: Naming, R: Threads + Wait + Sync>(
    threads: &R,
    alloc: Global,
    hall: &Hall<H>,
    text: &[u8],
    quorums: Quorums,
    disks: Vec<MemoryPair>,
    node: usize,
) -> Result<(), Option<String>> {
    match opened_on(threads, alloc, hall, text, quorums, disks) {
        Ok(_farm) => Ok(()),
        Err((_disks, fault)) => {
            if is_answer(&fault, node) {
                Ok(())
            } else {
                Err(line_of_farm(alloc, fault))
            }
        }
    }
}

/// The same of each damage at that place of the node's journal.
fn all_answered<H: Naming, R: Threads + Wait + Sync>(
    threads: &R,
    alloc: Global,
    hall: &Hall<H>,
    text: &[u8],
    quorums: Quorums,
    journals: &[Vec<u8>],
    node: usize,
    at: usize,
) -> Result<(), Option<String>>
    requires { node < length journals.now }
{
    for damage in [Damage::Cut, Damage::Bit, Damage::Bits] {
        let Some(other) = damaged(alloc, journals[node].as_slice(), at, damage) else {
            return Err(None);
        };
        let Some(disks) = disks_with(alloc, journals, node, other.as_slice()) else {
            return Err(None);
        };
        match answered(threads, alloc, hall, text, quorums, disks, node) {
            Ok(()) => {}
            Err(line) => return Err(line),
        }
    }
    Ok(())
}

/// The same at every so many bytes of the node's journal.
fn node_answered<H: Naming, R: Threads + Wait + Sync>(
    threads: &R,
    alloc: Global,
    hall: &Hall<H>,
    text: &[u8],
    quorums: Quorums,
    journals: &[Vec<u8>],
    node: usize,
    step: usize,
) -> Result<(), Option<String>>
    requires { node < length journals.now }
{
    for at in 0..journals[node].len() {
        if step != 0 && at % step == 0 {
            match all_answered(threads, alloc, hall, text, quorums, journals, node, at) {
                Ok(()) => {}
                Err(line) => return Err(line),
            }
        }
    }
    Ok(())
}

/// Each journal of a whole farm is damaged at every so many bytes.
pub(crate) fn swept_told<H: Naming + Send, R: Threads + Wait + Sync>(
    threads: &R,
    alloc: Global,
    hall: &Hall<H>,
    step: &str,
    text: &[u8],
    quorums: Quorums,
) -> Option<String> {
    let Ok(step) = step.parse() else {
        return None;
    };
    let Some(disks) = whole_disks(threads, alloc, hall, text, quorums) else {
        return None;
    };
    let Some(journals) = bytes_of_all(alloc, disks) else {
        return None;
    };
    for node in 0..journals.len() {
        match node_answered(threads, alloc, hall, text, quorums, &journals, node, step) {
            Ok(()) => {}
            Err(line) => return line,
        }
    }
    owned(alloc, "answered")
}
