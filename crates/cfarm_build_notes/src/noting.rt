//! What is noted of the journals of a folder, for a user. Nothing that is built depends on it.

use cfarm_options::{Meter, Note, holds_nothing, holds_records};
use durable_pair::Pair;

/// How many nodes a farm has at most.
const NODES: usize = 7;

/// How many journals of the first version count, and which nodes have none where others have records.
#[derive(Clone, Copy)]
pub struct Standing {
    old: usize,
    lost: [bool; NODES],
}

/// Whether a node has records.
fn have_records<D: Pair>(disks: &[D]) -> bool {
    for disk in disks {
        if holds_records(disk.lent(), disk.lent_old()) {
            return true;
        }
    }
    false
}

/// Which nodes have no journal, where others have records.
fn lost_among<D: Pair>(disks: &[D]) -> [bool; NODES] {
    let mut lost = [false; NODES];
    if !have_records(disks) {
        return lost;
    }
    let mut node = 0usize;
    for disk in disks {
        if let Some(is_lost) = lost.get_mut(node) {
            *is_lost = holds_nothing(disk.lent(), disk.lent_old());
        }
        node = node.saturating_add(1);
    }
    lost
}

/// What stands on these disks, of which so many have a journal of the first version that counts.
pub fn standing_of<D: Pair>(old: usize, disks: &[D]) -> Standing {
    Standing {
        old,
        lost: lost_among(disks),
    }
}

/// Notes each node that had no journal, where others had records.
pub fn note_lost<M: Meter>(before: Standing, meter: &mut M) {
    for node in 0..before.lost.len() {
        if before.lost[node] {
            meter.note(Note::Lost(node));
        }
    }
}

/// Notes how many of the nodes' journals were migrated.
pub fn note_migrated<M: Meter>(nodes: usize, before: Standing, after: Standing, meter: &mut M) {
    let migrated = before.old.saturating_sub(after.old);
    if migrated > 0 {
        meter.note(Note::Migrated(migrated, nodes));
    }
}
