//! Journals of records that are listed.

use crate::answers::opening_told;
use acceptor_log_form::{Header, header_bytes};
use durable_pair_memory::MemoryPair;
use farm_nodes_source::prepare;
use paxos_core_world::quorum::Quorums;
use rooms_hall::{Hall, Naming};
use std::alloc::Global;
use std::sync::Wait;
use std::thread::Threads;
use worked_row_files::{bytes_of, fine, some};
use worked_whole::disk_of;

/// Adds a record to a journal: its gate, its length, and its bytes.
fn add(journal: &mut Vec<u8>, body: &[u8]) -> Option<()> {
    let size = fine!(u32::try_from(body.len()));
    fine!(journal.push(1));
    fine!(journal.extend_from_slice(&size.to_be_bytes()));
    journal.extend_from_slice(body).ok()
}

/// A journal of the records.
fn journal_of(alloc: Global, header: &Header, records: &str) -> Option<Vec<u8>> {
    let mut journal = fine!(header_bytes(alloc, header));
    for word in records.split(',') {
        if word != "-" {
            let body = some!(bytes_of(alloc, word));
            some!(add(&mut journal, body.as_slice()));
        }
    }
    fine!(journal.push(0));
    Some(journal)
}

/// The disks of the nodes whose records are listed.
fn forged_disks(
    alloc: Global,
    quorums: Quorums,
    digest: [u8; 32],
    records: &str,
) -> Option<Vec<MemoryPair>> {
    let mut disks = Vec::new(alloc);
    let mut number = 0u8;
    for node in records.split(';') {
        let header = Header {
            nodes: quorums.nodes(),
            promise: quorums.promise(),
            accept: quorums.accept(),
            node: number,
            digest,
        };
        let journal = some!(journal_of(alloc, &header, node));
        let disk = some!(disk_of(alloc, journal.as_slice()));
        if disks.push(disk).is_err() {
            return None;
        }
        number = number.saturating_add(1);
    }
    Some(disks)
}

/// What opening over them tells.
pub(crate) fn forged_told<H: Naming, R: Threads + Wait + Sync>(
    threads: &R,
    alloc: Global,
    hall: &Hall<H>,
    records: &str,
    text: &[u8],
    quorums: Quorums,
) -> Option<String> {
    let Ok(source) = prepare(alloc, text) else {
        return None;
    };
    let Some(disks) = forged_disks(alloc, quorums, source.digest, records) else {
        return None;
    };
    opening_told(threads, alloc, hall, text, quorums, disks)
}
