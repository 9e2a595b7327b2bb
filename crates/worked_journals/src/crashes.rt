//! Appends on disks that fail and crash.

ghost use Rattle.acceptor_log.specs.Acknowledged.{IsSound};

use acceptor_log::Log;
use acceptor_log_form::{Header, LogError, Record};
use durable_model::{Disk, MemoryDisk};
use lang_base::Row;
use rand_pcg::Pcg32;
use std::alloc::Global;
use worked_row_files::{fine, some};

const HEADER: Header = Header {
    nodes: 3,
    promise: 2,
    accept: 2,
    node: 0,
    digest: [7; 32],
};

/// Whether, with each of so many calls failing in turn, each of 16 crashes leaves what was acknowledged.
pub fn all_survive(alloc: Global, appends: u16, calls: usize) -> Option<bool> {
    for fails in 0..calls {
        let mut disk = fine!(MemoryDisk::new(alloc, calls, 100_000));
        disk.fail_at(fails);
        let (disk, done) = some!(filled(alloc, disk, appends));
        let Some(done) = done else {
            continue;
        };
        for seed in 0..16u64 {
            if !some!(survives(alloc, &disk, done, seed)) {
                return Some(false);
            }
        }
    }
    Some(true)
}

/// Makes a journal and appends so many records, up to the first that is refused; tells how many were acknowledged. What is
/// refused is refused since the device failed, and from then on the journal has stopped; else there is no answer.
fn filled<D: Disk + Drop>(alloc: Global, disk: D, appends: u16) -> Option<(D, Option<u16>)> {
    let mut log = match Log::create(alloc, disk, &HEADER) {
        Ok(log) => log,
        Err((disk, _refused)) => return Some((disk, None)),
    };
    let mut done = 0;
    for number in 0..appends {
        let Some(entry) = entry_of(alloc, number) else {
            break;
        };
        match log.append(&entry) {
            Ok(()) => done = number + 1,
            Err(LogError::Device) => {
                if !has_stopped(&mut log, &entry) {
                    return None;
                }
                break;
            }
            Err(_) => return None,
        }
    }
    Some((log.into_disk(), Some(done)))
}

/// Whether the journal answers that it has stopped.
fn has_stopped<D: Disk>(log: &mut Log<D>, entry: &Record) -> bool
    requires { IsSound D.Disk log.old }
{
    matches!(log.append(entry), Err(LogError::Stopped))
}

/// Whether a crash leaves a journal of the first so many records, or of one more.
fn survives(alloc: Global, disk: &MemoryDisk, done: u16, seed: u64) -> Option<bool> {
    let crashed = fine!(disk.crash(alloc, &mut Pcg32::new(seed, 0)));
    let Ok((_log, records)) = Log::open(alloc, crashed, &HEADER) else {
        return Some(false);
    };
    let many = records.len();
    let known = usize::from(done);
    Some((many == known || many == known + 1) && some!(are_first(alloc, records.as_slice())))
}

fn are_first(alloc: Global, records: &[Record]) -> Option<bool> {
    for (number, entry) in records.iter().enumerate() {
        if *entry != some!(entry_of(alloc, fine!(u16::try_from(number)))) {
            return Some(false);
        }
    }
    Some(true)
}

/// One record for each number, of each kind in turn.
fn entry_of(alloc: Global, number: u16) -> Option<Record> {
    Some(match number % 5 {
        0 => Record::Offered(number, some!(offer_of(alloc, number))),
        1 => Record::Started(number, 3),
        2 => Record::Proposed(number, 3, 1),
        3 => Record::Promised(number, 4),
        _ => Record::Accepted(number, 4, 2),
    })
}

fn offer_of(alloc: Global, number: u16) -> Option<Row<u8>> {
    let mut bytes = Vec::new(alloc);
    for index in 0..number {
        fine!(bytes.push((index % 251) as u8));
    }
    Some(Row::from_vec(bytes))
}
