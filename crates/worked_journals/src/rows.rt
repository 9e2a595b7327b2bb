use crate::again::is_made_again;
use crate::changes::{changed, cut};
use crate::crashes::all_survive;
use crate::forms::{Asked, asked_of, records_in};
use crate::migrations::{made_after_stops, made_of, made_over};
use acceptor_log::Log;
use acceptor_log_form::{Header, LogError, Record, kept_parts};
use durable_model::{Disk, MemoryDisk};
use std::alloc::Global;
use worked_row_files::{Answers, bytes_of, fine, numbered, owned, some};

/// Answers what a row asks.
#[derive(Clone, Copy)]
pub struct Rows;

impl Answers for Rows {
    fn answer(&mut self, alloc: Global, question: &str, _row: u64) -> Option<String> {
        let (word, rest) = some!(question.split_once(' '));
        let (first, second) = some!(rest.split_once(' '));
        match word {
            "crashes" => {
                let held = some!(all_survive(alloc, fine!(first.parse()), fine!(second.parse())));
                owned(alloc, if held { "yes" } else { "no" })
            }
            _ => asked(alloc, word, first, second),
        }
    }
}

fn asked(alloc: Global, word: &str, header: &str, journal: &str) -> Option<String> {
    let asked = some!(asked_of(some!(bytes_of(alloc, header)).as_slice()));
    let bytes = some!(bytes_of(alloc, journal));
    let (header, bytes) = (&asked.header, bytes.as_slice());
    match word {
        "read" => match records_in(alloc, &asked, bytes) {
            Ok(records) => counted(alloc, header, records.as_slice()),
            Err(fault) => refused(alloc, fault),
        },
        "list" => match records_in(alloc, &asked, bytes) {
            Ok(records) => listed(alloc, records.as_slice()),
            Err(fault) => refused(alloc, fault),
        },
        "order" => ordered(alloc, &asked, bytes),
        "open" => opened(alloc, header, bytes),
        "create" => created(alloc, header, bytes),
        "again" => {
            let is_same = some!(is_made_again(alloc, header, bytes));
            owned(alloc, if is_same { "yes" } else { "no" })
        }
        "migrate" => made_of(alloc, header, bytes),
        "over" => made_over(alloc, header, bytes),
        "stopped" => made_after_stops(alloc, header, bytes),
        _ => varied(alloc, word, &asked, bytes),
    }
}

fn varied(alloc: Global, word: &str, asked: &Asked, bytes: &[u8]) -> Option<String> {
    if word == "cuts" {
        return cut(alloc, asked, bytes);
    }
    let at = fine!(some!(word.strip_prefix("changed-")).parse());
    changed(alloc, asked, fine!(Vec::from_slice(alloc, bytes)), at)
}

/// How many records there are, where they keep the order.
fn ordered(alloc: Global, asked: &Asked, bytes: &[u8]) -> Option<String> {
    if asked.header.nodes == 0 {
        return None;
    }
    let records = match records_in(alloc, asked, bytes) {
        Ok(records) => records,
        Err(fault) => return refused(alloc, fault),
    };
    match kept_parts(alloc, &asked.header, u16::MAX, records.as_slice()) {
        Ok(_) => numbered(alloc, "", records.len() as u64),
        Err(fault) => refused(alloc, fault),
    }
}

/// What a new journal holds that was made over these bytes.
fn created(alloc: Global, header: &Header, bytes: &[u8]) -> Option<String> {
    let disk = fine!(MemoryDisk::new(alloc, 8, bytes.len().saturating_add(100)));
    let mut disk = disk;
    fine!(disk.write_at(0, bytes));
    match Log::create(alloc, disk, header) {
        Ok(log) => {
            let mut disk = log.into_disk();
            hex::encode(alloc, fine!(disk.read(alloc)).as_slice()).ok()
        }
        Err((_disk, fault)) => refused(alloc, fault),
    }
}

fn opened(alloc: Global, header: &Header, bytes: &[u8]) -> Option<String> {
    let mut disk = fine!(MemoryDisk::new(alloc, 8, bytes.len()));
    fine!(disk.write_at(0, bytes));
    match Log::open(alloc, disk, header) {
        Ok((_log, records)) => counted(alloc, header, records.as_slice()),
        Err((_disk, fault)) => refused(alloc, fault),
    }
}

fn refused(alloc: Global, fault: LogError) -> Option<String> {
    numbered(alloc, "", u64::from(fault.number()))
}

fn counted(alloc: Global, header: &Header, records: &[Record]) -> Option<String> {
    for entry in records {
        if !is_numbered(header, entry) {
            return refused(alloc, LogError::BadRecord);
        }
    }
    numbered(alloc, "", records.len() as u64)
}

/// Whether its ballot is from 1, and its value a node.
fn is_numbered(header: &Header, entry: &Record) -> bool {
    match entry {
        Record::Offered(_, _) => true,
        Record::Started(_, ballot) => 0 < *ballot,
        Record::Promised(_, ballot) => 0 < *ballot,
        Record::Proposed(_, ballot, value) => 0 < *ballot && *value < header.nodes,
        Record::Accepted(_, ballot, value) => 0 < *ballot && *value < header.nodes,
        Record::Summary(_, _, _, _) => true,
    }
}

/// The records in words.
pub fn listed(alloc: Global, records: &[Record]) -> Option<String> {
    let mut text = String::new(alloc);
    for entry in records {
        let one = some!(told(alloc, entry));
        fine!(text.push_str(one.as_str()));
    }
    Some(text)
}

fn told(alloc: Global, entry: &Record) -> Option<String> {
    match entry {
        Record::Offered(room, offer) => format!(in alloc; "1,{room},{};", offer.len()).ok(),
        Record::Started(room, ballot) => format!(in alloc; "2,{room},{ballot};").ok(),
        Record::Proposed(room, ballot, value) => {
            format!(in alloc; "3,{room},{ballot},{value};").ok()
        }
        Record::Promised(room, ballot) => format!(in alloc; "4,{room},{ballot};").ok(),
        Record::Accepted(room, ballot, value) => {
            format!(in alloc; "5,{room},{ballot},{value};").ok()
        }
        Record::Summary(room, started, promised, (ballot, value)) => {
            format!(in alloc; "6,{room},{started},{promised},{ballot},{value};").ok()
        }
    }
}
