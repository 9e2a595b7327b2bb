//! Journals in which two functions have exchanged their rooms.

use crate::answers::line_of;
use acceptor_log::Log;
use acceptor_log_form::{Header, Record};
use cfarm_build::{Host, build};
use cfarm_options::Meter;
use durable_model::Disk;
use durable_pair_memory::MemoryPair;
use farm_nodes_source::prepare;
use paxos_core_world::quorum::Quorums;
use rooms_hall::{Hall, Naming};
use std::alloc::Global;
use std::sync::Wait;
use std::thread::Threads;
use worked_row_files::owned;
use worked_whole::{Optimising, TURNS, empty_disk, optimisers_of, whole_disks};

/// The same record in the room of the same pass of the other function, of the first two: they have the rooms 0 to 3, and 4 to 7.
fn moved(entry: Record) -> Record {
    match entry {
        Record::Offered(room, offer) => Record::Offered(room ^ 4, offer),
        Record::Started(room, ballot) => Record::Started(room ^ 4, ballot),
        Record::Proposed(room, ballot, value) => Record::Proposed(room ^ 4, ballot, value),
        Record::Promised(room, ballot) => Record::Promised(room ^ 4, ballot),
        Record::Accepted(room, ballot, value) => Record::Accepted(room ^ 4, ballot, value),
        Record::Summary(room, started, promised, vote) => Record::Summary(
            room ^ 4,
            started,
            promised,
            vote,
        ),
    }
}

/// The disk with a new journal of the records in the other rooms.
fn appended<D: Disk + Drop>(
    alloc: Global,
    disk: D,
    header: &Header,
    records: Vec<Record>,
) -> Option<D> {
    let Ok(mut log) = Log::create(alloc, disk, header) else {
        return None;
    };
    for entry in records {
        if log.append(&moved(entry)).is_err() {
            return None;
        }
    }
    Some(log.into_disk())
}

/// The disks of three nodes with the same records in the other rooms.
fn crossed(
    alloc: Global,
    quorums: Quorums,
    disks: Vec<MemoryPair>,
    digest: [u8; 32],
) -> Option<Vec<MemoryPair>> {
    let mut all = Vec::new(alloc);
    let mut number = 0u8;
    for disk in disks {
        let header = Header {
            nodes: quorums.nodes(),
            promise: quorums.promise(),
            accept: quorums.accept(),
            node: number,
            digest,
        };
        let Ok((_log, records)) = Log::open(alloc, disk, &header) else {
            return None;
        };
        let Some(empty) = empty_disk(alloc) else {
            return None;
        };
        let Some(disk) = appended(alloc, empty, &header, records) else {
            return None;
        };
        if all.push(disk).is_err() {
            return None;
        }
        number = number.saturating_add(1);
    }
    Some(all)
}

/// Is told how far a build is, and shows nothing.
#[derive(Drop)]
struct Quiet;

impl Meter for Quiet {
    fn found(&mut self, _old: usize, _nodes: usize) {}

    fn opened(&mut self) {}

    fn tell(&mut self, _agreed: usize, _rooms: usize, _linked: usize, _functions: usize) {}

    fn clear(&mut self) {}
}

/// Whether a farm with these quorums builds a program over the disks; else its line.
fn build_told<H: Naming + Send, R: Threads + Wait + Sync>(
    threads: &R,
    alloc: Global,
    hall: &Hall<H>,
    text: &[u8],
    quorums: Quorums,
    disks: Vec<MemoryPair>,
) -> Option<String> {
    let count = usize::from(quorums.nodes());
    if disks.len() != count {
        return None;
    }
    let Ok(oracles) = optimisers_of(alloc, count, Optimising::Drawn) else {
        return None;
    };
    let Ok(source) = prepare(alloc, text) else {
        return None;
    };
    let host = Host {
        threads,
        alloc,
        hall,
    };
    let (made, _back) = build(
        &host, source, disks, oracles, TURNS, 1, quorums, false, &mut Quiet,
    );
    match made {
        Ok(_built) => owned(alloc, "linked"),
        Err(fault) => line_of(alloc, &fault),
    }
}

/// A whole farm's journals are read as those of a farm whose first two functions have exchanged their rooms.
pub(crate) fn crossed_told<H: Naming + Send, R: Threads + Wait + Sync>(
    threads: &R,
    alloc: Global,
    hall: &Hall<H>,
    text: &[u8],
    quorums: Quorums,
) -> Option<String> {
    let Ok(source) = prepare(alloc, text) else {
        return None;
    };
    let Some(disks) = whole_disks(threads, alloc, hall, text, quorums) else {
        return None;
    };
    let Some(disks) = crossed(alloc, quorums, disks, source.digest) else {
        return None;
    };
    build_told(threads, alloc, hall, text, quorums, disks)
}
