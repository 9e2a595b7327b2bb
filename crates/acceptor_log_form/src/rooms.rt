//! What the records of a journal leave of each room, and the order that they keep there.

ghost use Rattle.std.specs.Prelude.{◌≡◌, ◌≢◌, ◌<◌, ◌↔◌, ℕ, Some, slice_get, length, IsTrue, All, IfOk, OnOk, IfErr, IfSome, OnSome, IfNone};
ghost use Rattle.paxos_core_world.specs.KeptPart.{nothing_kept, part};
ghost use Rattle.acceptor_log_form.specs.Fault.{IsMemoryOr};
ghost use Rattle.acceptor_log_form.specs.Leaves.{kept_by_record, proposed_by, kept_in, vote_told};
ghost use Rattle.acceptor_log_form.specs.Order.{MayComeNext, KeepOrder, Opens, IsVoteWithin};

use crate::errors::LogError;
use crate::header::Header;
use crate::record::Record;
use paxos_core_world::ballot::owns;
use paxos_core_world::kept::Kept;
use paxos_core_world::vote::Vote;
use std::alloc::{AllocError, Global};

/// The kept part of each of so many rooms, by its number, where the records are in order there.
pub fn kept_parts(
    alloc: Global,
    header: &Header,
    rooms: u16,
    records: &[Record],
) -> Result<Vec<Kept>, LogError>
    requires { 0 < header.now.nodes }
    ensures rooms { IfOk result (λ parts. length parts.items ≡ rooms) }
    ensures kept { IfOk result (λ parts. (m : ℕ) → m < rooms →
        slice_get parts.items m ≡ Some (kept_in records.now m)) }
    ensures in_order { OnOk result (KeepOrder header.now rooms records.now) }
    ensures refused { IfErr result (IsMemoryOr LogError.BadRecord (KeepOrder header.now rooms records.now → ⊥)) }
{
    let all = usize::from(rooms);
    kept_parts_of(alloc, header, all, records)
}

/// The same of any number of rooms, such as all that a record can name.
pub fn kept_parts_of(
    alloc: Global,
    header: &Header,
    rooms: usize,
    records: &[Record],
) -> Result<Vec<Kept>, LogError>
    requires { 0 < header.now.nodes }
    ensures rooms { IfOk result (λ parts. length parts.items ≡ rooms) }
    ensures kept { IfOk result (λ parts. (m : ℕ) → m < rooms →
        slice_get parts.items m ≡ Some (kept_in records.now m)) }
    ensures in_order { OnOk result (KeepOrder header.now rooms records.now) }
    ensures refused { IfErr result (IsMemoryOr LogError.BadRecord (KeepOrder header.now rooms records.now → ⊥)) }
{
    let mut kept = nothing_in(alloc, rooms)?;
    let mut proposed = vec![in alloc; 0u16; rooms]?;
    for entry in records {
        let room = usize::from(entry.room());
        if room >= kept.len() {
            return Err(LogError::BadRecord);
        }
        let Some(next) = after(header, kept[room], proposed[room], entry) else {
            return Err(LogError::BadRecord);
        };
        kept[room] = next.kept;
        proposed[room] = next.proposed;
    }
    Ok(kept)
}

/// So many parts of nodes that have kept nothing yet.
fn nothing_in(alloc: Global, rooms: usize) -> Result<Vec<Kept>, AllocError>
    ensures rooms { IfOk result (λ parts. length parts.items ≡ rooms) }
    ensures nothing { IfOk result (λ parts. All (λ k. k ≡ nothing_kept) parts.items) }
{
    let mut parts = Vec::new(alloc);
    for _room in 0..rooms {
        parts.push(Kept::nothing())?;
    }
    Ok(parts)
}

/// What a node's records leave of one room.
#[derive(Clone, Copy)]
struct Left {
    /// The kept part.
    kept: Kept,
    /// The ballot under which the node proposed last, 0 for none.
    proposed: u16,
}

/// What is left of a room once a record of it is put down, where that goes on from what was left before.
fn after(header: &Header, kept: Kept, proposed: u16, entry: &Record) -> Option<Left>
    requires { 0 < header.now.nodes }
    ensures goes_on { OnSome result (MayComeNext header.now.nodes header.now.node kept proposed entry.now) }
    ensures kept { IfSome result (λ next. next.kept ≡ kept_by_record kept entry.now) }
    ensures proposed { IfSome result (λ next. next.proposed ≡ proposed_by proposed entry.now) }
    ensures refused { IfNone result (MayComeNext header.now.nodes header.now.node kept proposed entry.now → ⊥) }
{
    if !goes_on(header, kept, proposed, entry) {
        return None;
    }
    match entry {
        Record::Offered(_, _) => Some(Left {
            kept: kept.with_offer(),
            proposed,
        }),
        Record::Started(_, ballot) => Some(Left {
            kept: kept.with_start(*ballot),
            proposed,
        }),
        Record::Proposed(_, ballot, _) => Some(Left {
            kept,
            proposed: *ballot,
        }),
        Record::Promised(_, ballot) => Some(Left {
            kept: kept.with_promise(*ballot),
            proposed,
        }),
        Record::Accepted(_, ballot, value) => Some(Left {
            kept: kept.with_vote(Vote {
                ballot: *ballot,
                value: u16::from(*value),
            }),
            proposed,
        }),
        Record::Summary(_, started, promised, accepted) => {
            after_summary(kept, *started, *promised, *accepted)
        }
    }
}

/// What is left of a room once its summary is put down. A node proposes no more under the ballot that it tells.
fn after_summary(kept: Kept, started: u16, promised: u16, accepted: (u16, u8)) -> Option<Left>
    ensures kept { IfSome result (λ next. next.kept ≡ part kept.offered started promised (vote_told accepted)) }
    ensures proposed { IfSome result (λ next. next.proposed ≡ started) }
    ensures none { IfNone result ((n : ℕ) → IsVoteWithin n promised accepted → ⊥) }
{
    let vote = told_vote(accepted);
    let Some(kept) = Kept::of(
        kept.offered(),
        u32::from(started),
        u32::from(promised),
        vote,
    ) else {
        return None;
    };
    Some(Left {
        kept,
        proposed: started,
    })
}

/// The vote that a summary tells.
fn told_vote(accepted: (u16, u8)) -> Option<(u32, u32)>
    ensures { result ≡ vote_told accepted }
{
    if accepted.0 == 0 {
        None
    } else {
        Some((u32::from(accepted.0), u32::from(accepted.1)))
    }
}

/// Whether the record goes on from what was left of its room.
fn goes_on(header: &Header, kept: Kept, proposed: u16, entry: &Record) -> bool
    requires { 0 < header.now.nodes }
    ensures { IsTrue result ↔ MayComeNext header.now.nodes header.now.node kept proposed entry.now }
{
    match entry {
        Record::Offered(_, _) => !kept.offered(),
        Record::Started(_, ballot) => {
            let (nodes, node) = (usize::from(header.nodes), usize::from(header.node));
            owns(nodes, node, *ballot) && kept.started() < *ballot
        }
        Record::Proposed(_, ballot, value) => {
            1 <= *ballot
                && *ballot == kept.started()
                && proposed != *ballot
                && *value < header.nodes
        }
        Record::Promised(_, ballot) => kept.promised() < *ballot,
        Record::Accepted(_, ballot, value) => {
            1 <= *ballot
                && kept.promised() <= *ballot
                && is_new_ballot(kept.accepted(), *ballot)
                && *value < header.nodes
        }
        Record::Summary(_, started, promised, accepted) => {
            opens(header, kept, *started, *promised, *accepted)
        }
    }
}

/// Whether a summary of a room may be put down where this was left of it.
fn opens(header: &Header, kept: Kept, started: u16, promised: u16, accepted: (u16, u8)) -> bool
    requires { 0 < header.now.nodes }
    ensures { IsTrue result ↔ Opens header.now.nodes header.now.node kept started promised accepted }
{
    let (nodes, node) = (usize::from(header.nodes), usize::from(header.node));
    kept.started() == 0
        && kept.promised() == 0
        && (started == 0 || owns(nodes, node, started))
        && is_vote_within(header.nodes, promised, accepted)
        && (0 < started || 0 < promised)
}

/// Whether a summary tells no vote, or one for a node's offer under a ballot that is not above the promised one.
fn is_vote_within(nodes: u8, promised: u16, accepted: (u16, u8)) -> bool
    ensures { IsTrue result ↔ IsVoteWithin nodes promised accepted }
{
    if accepted.0 == 0 {
        accepted.1 == 0
    } else {
        accepted.0 <= promised && accepted.1 < nodes
    }
}

/// Whether no vote was given under the ballot.
fn is_new_ballot(accepted: Option<Vote>, ballot: u16) -> bool
    ensures { IsTrue result ↔ IfSome accepted (λ vote. vote.ballot ≢ ballot) }
{
    match accepted {
        None => true,
        Some(vote) => vote.ballot != ballot,
    }
}
