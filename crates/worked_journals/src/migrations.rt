//! Journals of earlier forms that are migrated on a pair of disks.

use acceptor_log::Log;
use acceptor_log_form::{Header, LogError};
use acceptor_log_migrating::migrate;
use durable_pair::Pair;
use durable_pair_memory::MemoryPair;
use rand_pcg::Pcg32;
use std::alloc::Global;
use worked_row_files::{fine, numbered, owned, some};

/// What a new disk may hold before.
const LEFT_OVER: &[u8] = b"something that was there before, and is longer than a header";

/// A pair of disks that hold these bytes and can note some calls.
fn holding(alloc: Global, content: &[u8], old: &[u8]) -> Option<MemoryPair> {
    let both = content.len().saturating_add(old.len());
    let most = both.saturating_mul(4).saturating_add(1_000);
    let content = fine!(Vec::from_slice(alloc, content));
    let old = fine!(Vec::from_slice(alloc, old));
    MemoryPair::holding(alloc, content, old, 50, most).ok()
}

/// What migration leaves of a pair, and what it was refused for.
fn migrated(
    alloc: Global,
    header: &Header,
    pair: MemoryPair,
) -> Option<(MemoryPair, Option<LogError>)> {
    if header.nodes == 0 {
        return None;
    }
    Some(match migrate(alloc, pair, header) {
        Ok(log) => (log.into_disk(), None),
        Err((pair, refused)) => (pair, Some(refused)),
    })
}

/// The new journal that an old one becomes, or the number of the refusal; nothing is written then.
pub fn made_of(alloc: Global, header: &Header, old: &[u8]) -> Option<String> {
    let (pair, refused) = some!(migrated(alloc, header, some!(holding(alloc, &[], old))));
    match refused {
        None => {
            if is_spent(old, pair.old_bytes()) {
                hex::encode(alloc, pair.bytes()).ok()
            } else {
                owned(alloc, "an old journal that counts")
            }
        }
        Some(fault) => {
            if pair.bytes().is_empty() && pair.old_bytes() == old {
                numbered(alloc, "", u64::from(fault.number()))
            } else {
                owned(alloc, "a refusal that wrote")
            }
        }
    }
}

/// Whether the first byte is 0, and each other as it was.
fn is_spent(old: &[u8], now: &[u8]) -> bool {
    match (old, now) {
        ([_, before @ ..], [0, after @ ..]) => before == after,
        _ => false,
    }
}

/// The new disk's bytes, once the pair was migrated without a refusal.
fn written_over(alloc: Global, header: &Header, content: &[u8], old: &[u8]) -> Option<Vec<u8>> {
    let (pair, refused) = some!(migrated(alloc, header, some!(holding(alloc, content, old))));
    match refused {
        None => Vec::from_slice(alloc, pair.bytes()).ok(),
        Some(_) => None,
    }
}

/// The new journal, where migration makes it anew over each front of it, over it with any one byte changed, and over it with
/// bytes behind it; and where a pair with another first byte of the old journal opens it.
pub fn made_over(alloc: Global, header: &Header, old: &[u8]) -> Option<String> {
    let text = some!(written_over(alloc, header, &[], old));
    let all = some!(are_made_over_fronts(alloc, header, text.as_slice(), old))
        && some!(are_made_over_changes(alloc, header, text.as_slice(), old))
        && some!(is_made_over_longer(alloc, header, text.as_slice(), old))
        && some!(are_opened(alloc, header, text.as_slice(), old));
    told(alloc, all, text.as_slice())
}

fn told(alloc: Global, all: bool, text: &[u8]) -> Option<String> {
    if all {
        hex::encode(alloc, text).ok()
    } else {
        owned(alloc, "another journal")
    }
}

fn are_made_over_fronts(alloc: Global, header: &Header, text: &[u8], old: &[u8]) -> Option<bool> {
    for number in 0..text.len() {
        let made = some!(written_over(alloc, header, some!(text.get(..number)), old));
        if made.as_slice() != text {
            return Some(false);
        }
    }
    Some(true)
}

fn are_made_over_changes(alloc: Global, header: &Header, text: &[u8], old: &[u8]) -> Option<bool> {
    for at in 0..text.len() {
        for change in [0x01u8, 0x43, 0xff] {
            let mut content = fine!(Vec::from_slice(alloc, text));
            if at < content.len() {
                content[at] ^= change;
            }
            let made = some!(written_over(alloc, header, content.as_slice(), old));
            if made.as_slice() != text {
                return Some(false);
            }
        }
    }
    Some(true)
}

/// Bytes behind the new journal stay, and do not count.
fn is_made_over_longer(alloc: Global, header: &Header, text: &[u8], old: &[u8]) -> Option<bool> {
    let mut longer = fine!(Vec::from_slice(alloc, text));
    fine!(longer.extend_from_slice(LEFT_OVER));
    let made = some!(written_over(alloc, header, longer.as_slice(), old));
    Some(made == longer && some!(opens_as(alloc, header, some!(holding(alloc, &made, &[0])), text)))
}

/// With each first byte of the old journal the pair opens as the new one: where it is a `C`, migrated again.
fn are_opened(alloc: Global, header: &Header, text: &[u8], old: &[u8]) -> Option<bool> {
    for byte in 0..=255u8 {
        let mut turned = fine!(Vec::from_slice(alloc, old));
        if turned.is_empty() {
            return None;
        }
        turned[0] = byte;
        if !some!(opens_as(
            alloc,
            header,
            some!(holding(alloc, text, turned.as_slice())),
            text,
        )) {
            return Some(false);
        }
    }
    Some(true)
}

/// Whether a node that opens the pair lists what the new journal does: it migrates an old journal that counts.
fn opens_as(alloc: Global, header: &Header, pair: MemoryPair, text: &[u8]) -> Option<bool> {
    let mut pair = pair;
    fine!(pair.sync_old());
    let counts = fine!(pair.read_old(alloc)).first() == Some(&b'C');
    let pair = if counts {
        match some!(migrated(alloc, header, pair)) {
            (pair, None) => pair,
            _ => return Some(false),
        }
    } else {
        pair
    };
    match Log::open(alloc, pair, header) {
        Ok((log, _records)) => Some(log.disk().bytes().starts_with(text)),
        Err(_) => Some(false),
    }
}

/// The new journal, where a migration of which one call fails, or each from one on, leaves a pair that opens as it, under
/// sixteen crashes each and without one.
pub fn made_after_stops(alloc: Global, header: &Header, old: &[u8]) -> Option<String> {
    let text = some!(written_over(alloc, header, &[], old));
    let mut all = true;
    for call in 1..7usize {
        all = all && some!(survives(alloc, header, [&[], old], [call, 0], text.as_slice()));
        all = all && some!(survives(alloc, header, [LEFT_OVER, old], [call, 0], text.as_slice()));
        all = all && some!(survives(alloc, header, [&[], old], [0, call], text.as_slice()));
        all = all && some!(survives(alloc, header, [LEFT_OVER, old], [0, call], text.as_slice()));
    }
    told(alloc, all, text.as_slice())
}

fn survives(
    alloc: Global,
    header: &Header,
    held: [&[u8]; 2],
    fails: [usize; 2],
    text: &[u8],
) -> Option<bool> {
    let [content, old] = held;
    let [fails, stops] = fails;
    let mut pair = some!(holding(alloc, content, old));
    pair.fail_at(fails);
    pair.stop_from(stops);
    let (pair, _refused) = some!(migrated(alloc, header, pair));
    for seed in 1..17u64 {
        let left = fine!(pair.crash(alloc, &mut Pcg32::new(seed, 0)));
        if !some!(opens_as(alloc, header, left, text)) {
            return Some(false);
        }
    }
    let mut pair = pair;
    pair.fail_at(0);
    pair.stop_from(0);
    opens_as(alloc, header, pair, text)
}
