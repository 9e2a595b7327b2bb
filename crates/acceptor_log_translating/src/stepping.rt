//! What one record more leaves of a room.

ghost use Rattle.std.specs.Prelude.{◌≡◌, ◌≢◌, ◌<◌, ◌≤◌, ◌↔◌, true, false, IsTrue, OnSome, IfSome, IfNone};
ghost use Rattle.paxos_core_world.specs.Ballot.{Owns};
ghost use Rattle.acceptor_log_form.specs.Leaves.{kept_by_record, proposed_by};
ghost use Rattle.acceptor_log_form.specs.Order.{MayComeNext};
ghost use Rattle.acceptor_log_old.specs.OldText.{is_plain};
ghost use Rattle.acceptor_log_translating.specs.Found.{place_by, nothing_found, IsBroken};

use acceptor_log_form::{Header, Record};
use paxos_core_world::ballot::owns;
use paxos_core_world::kept::Kept;
use paxos_core_world::vote::Vote;

/// What was found of a room.
#[derive(Clone, Copy)]
pub struct Room {
    /// The kept part.
    pub kept: Kept,
    /// The ballot under which the node proposed last, 0 for none.
    pub proposed: u16,
    /// Where the offer stands with its gate: from the one byte up to the other; both are 0 where there is none.
    pub place: (usize, usize),
}

/// A room of which nothing was found.
pub fn new_room() -> Room
    ensures { result ≡ nothing_found }
{
    Room {
        kept: Kept::nothing(),
        proposed: 0,
        place: (0, 0),
    }
}

/// What is found of a room once a record of it is read that stands there, where an old journal may have that.
pub fn room_after(
    header: &Header,
    room: Room,
    entry: &Record,
    place: (usize, usize),
) -> Option<Room>
    requires { 0 < header.now.nodes }
    ensures plain { OnSome result (is_plain entry.now ≡ true) }
    ensures goes_on { OnSome result (MayComeNext header.now.nodes header.now.node room.kept room.proposed entry.now) }
    ensures kept { IfSome result (λ next. next.kept ≡ kept_by_record room.kept entry.now) }
    ensures proposed { IfSome result (λ next. next.proposed ≡ proposed_by room.proposed entry.now) }
    ensures place { IfSome result (λ next. next.place ≡ place_by room.place place entry.now) }
    ensures refused { IfNone result
        (IsBroken header.now.nodes header.now.node room.kept room.proposed entry.now) }
{
    let (kept, proposed) = (room.kept, room.proposed);
    if !goes_on(header, kept, proposed, entry) {
        return None;
    }
    match entry {
        Record::Offered(_, _) => Some(Room {
            kept: kept.with_offer(),
            proposed,
            place,
        }),
        Record::Started(_, ballot) => Some(Room {
            kept: kept.with_start(*ballot),
            ..room
        }),
        Record::Proposed(_, ballot, _) => Some(Room {
            proposed: *ballot,
            ..room
        }),
        Record::Promised(_, ballot) => Some(Room {
            kept: kept.with_promise(*ballot),
            ..room
        }),
        Record::Accepted(_, ballot, value) => Some(Room {
            kept: kept.with_vote(Vote {
                ballot: *ballot,
                value: u16::from(*value),
            }),
            ..room
        }),
        Record::Summary(_, _, _, _) => None,
    }
}

/// Whether the record is one of an old journal, and goes on from what was left of its room.
fn goes_on(header: &Header, kept: Kept, proposed: u16, entry: &Record) -> bool
    requires { 0 < header.now.nodes }
    ensures plain { IsTrue result → is_plain entry.now ≡ true }
    ensures yes { IsTrue result → MayComeNext header.now.nodes header.now.node kept proposed entry.now }
    ensures no { result ≡ false → IsBroken header.now.nodes header.now.node kept proposed entry.now }
{
    match entry {
        Record::Offered(_, _) => !kept.offered(),
        Record::Started(_, ballot) => may_start(header, kept, *ballot),
        Record::Proposed(_, ballot, value) => {
            may_propose(kept, proposed, *ballot) && *value < header.nodes
        }
        Record::Promised(_, ballot) => kept.promised() < *ballot,
        Record::Accepted(_, ballot, value) => may_accept(kept, *ballot) && *value < header.nodes,
        Record::Summary(_, _, _, _) => false,
    }
}

/// Whether it is an own ballot above the last that was started.
fn may_start(header: &Header, kept: Kept, ballot: u16) -> bool
    requires { 0 < header.now.nodes }
    ensures { IsTrue result ↔ (Owns header.now.nodes header.now.node ballot × (kept.started < ballot)) }
{
    let (nodes, node) = (usize::from(header.nodes), usize::from(header.node));
    owns(nodes, node, ballot) && kept.started() < ballot
}

/// Whether it is the ballot that was started last, and nothing was proposed under it.
fn may_propose(kept: Kept, proposed: u16, ballot: u16) -> bool
    ensures { IsTrue result ↔ ((1 ≤ ballot) × (ballot ≡ kept.started) × (proposed ≢ ballot)) }
{
    1 <= ballot && ballot == kept.started() && proposed != ballot
}

/// Whether it is a ballot that is not below the one promised, and no vote was given under it.
fn may_accept(kept: Kept, ballot: u16) -> bool
    ensures { IsTrue result
        ↔ ((1 ≤ ballot) × (kept.promised ≤ ballot) × IfSome kept.accepted (λ x. x.ballot ≢ ballot)) }
{
    1 <= ballot && kept.promised() <= ballot && is_new_ballot(kept.accepted(), ballot)
}

/// Whether no vote was given under the ballot.
fn is_new_ballot(accepted: Option<Vote>, ballot: u16) -> bool
    ensures { IsTrue result ↔ IfSome accepted (λ vote. vote.ballot ≢ ballot) }
{
    match accepted {
        None => true,
        Some(vote) => vote.ballot != ballot,
    }
}
