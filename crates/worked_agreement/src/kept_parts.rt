//! Kept parts of nodes, and what is settled.

use crate::words::{quorums_of, yes_or_no};
use paxos_core_theorem::settled::settled;
use paxos_core_world::kept::Kept;
use paxos_core_world::quorum::Quorums;
use std::alloc::Global;
use worked_row_files::{fine, owned, some};

/// The numbers of a list with commas between.
fn entries_of(alloc: Global, text: &str) -> Option<Vec<u32>> {
    let mut all = Vec::new(alloc);
    for word in text.split(',') {
        fine!(all.push(fine!(word.parse())));
    }
    Some(all)
}

/// The part with these entries, if they make one.
fn part_with(entries: &[u32]) -> Option<Kept> {
    let [offered, started, promised, ballot, value] = entries else {
        return None;
    };
    let is_vote = *ballot != 0 || *value != 0;
    let accepted = is_vote.then_some((*ballot, *value));
    Kept::of(*offered == 1, *started, *promised, accepted)
}

/// The part with these entries; none where they are no five numbers, or make no part.
fn part_of(alloc: Global, text: &str) -> Option<Kept> {
    part_with(&some!(entries_of(alloc, text)))
}

/// The parts with semicolons between.
fn parts_of(alloc: Global, text: &str) -> Option<Vec<Kept>> {
    let mut parts = Vec::new(alloc);
    for part in text.split(';') {
        fine!(parts.push(some!(part_of(alloc, part))));
    }
    Some(parts)
}

/// Whether a room with these quorums may open with these parts.
fn settled_with(alloc: Global, parts: &[Kept], quorums: Quorums) -> Option<String> {
    if parts.len() != usize::from(quorums.nodes()) {
        return None;
    }
    owned(alloc, yes_or_no(settled(parts, quorums)))
}

/// Whether a room may open with these parts. Where no sizes stand in front of them, its quorums are majorities.
pub fn settled_told(alloc: Global, text: &str) -> Option<String> {
    match text.split_once(' ') {
        Some((sizes, text)) => {
            settled_with(
                alloc,
                &some!(parts_of(alloc, text)),
                some!(quorums_of(alloc, sizes)),
            )
        }
        None => {
            let parts = some!(parts_of(alloc, text));
            let nodes = fine!(u8::try_from(parts.len()));
            settled_with(alloc, &parts, some!(Quorums::majorities(nodes)))
        }
    }
}

/// The entries of a part.
pub fn entries_told(alloc: Global, part: Kept) -> Option<String> {
    let (ballot, value) = match part.accepted() {
        Some(vote) => (vote.ballot, vote.value),
        None => (0, 0),
    };
    let offered = u8::from(part.offered());
    let (started, promised) = (part.started(), part.promised());
    format!(in alloc; "{offered},{started},{promised},{ballot},{value}").ok()
}

/// The part with these entries, or `none`.
pub fn kept_told(alloc: Global, text: &str) -> Option<String> {
    match part_of(alloc, text) {
        Some(part) => entries_told(alloc, part),
        None => owned(alloc, "none"),
    }
}
