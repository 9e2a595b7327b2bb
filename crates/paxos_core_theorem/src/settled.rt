ghost use Rattle.std.specs.Prelude.{◌≡◌, ◌<◌, ◌≤◌, ◌↔◌, IfSome, IsTrue, length};
ghost use Rattle.paxos_core_world.specs.Ballot.{Owns};
ghost use Rattle.paxos_core_world.specs.Quorum.{count_below};
ghost use Rattle.paxos_core_world.specs.Settled.{has_passed, has_promised, BallotsSettled, IsStarted, PairSettled, Settled};
ghost use Rattle.paxos_core_world.specs.World.{nodes_of};
ghost use Rattle.paxos_core_theorem.specs.Tests.{IsCovered, NodeSettled, VoteStands};

use paxos_core_world::ballot::owns;
use paxos_core_world::kept::Kept;
use paxos_core_world::quorum::{Quorums, is_promise_quorum};
use paxos_core_world::vote::Vote;

/// Whether a room can be opened with these kept parts and quorums: true exactly where they are
/// settled. The parts stand in the order of their nodes.
pub fn settled(parts: &[Kept], quorums: Quorums) -> bool
    requires { length parts.now ≡ quorums.nodes }
    ensures { IsTrue result ↔ Settled quorums (nodes_of parts.now) }
{
    for node in 0..parts.len() {
        if !node_settled(parts, quorums, node) {
            return false;
        }
    }
    true
}

/// Whether the node's ballots are settled, and its vote, if it has one, stands.
fn node_settled(parts: &[Kept], quorums: Quorums, node: usize) -> bool
    requires size { length parts.now ≡ quorums.nodes }
    requires below { node < length parts.now }
    ensures { IsTrue result ↔ NodeSettled quorums (nodes_of parts.now) node }
{
    let part = parts[node];
    let stands = match part.accepted() {
        None => true,
        Some(vote) => vote_stands(parts, quorums, vote),
    };
    stands && ballots_settled(parts, node)
}

/// Whether the node has started its own ballots alone, and none that is promised or voted under is
/// a higher one of its own.
fn ballots_settled(parts: &[Kept], node: usize) -> bool
    requires { node < length parts.now }
    ensures { IsTrue result ↔ BallotsSettled (length parts.now) (nodes_of parts.now) node }
{
    let part = parts[node];
    let started = part.started();
    if started != 0 && !owns(parts.len(), node, started) {
        return false;
    }
    for other in parts {
        if !is_covered(parts.len(), node, started, *other) {
            return false;
        }
    }
    true
}

/// Whether neither the promised ballot of the other part nor that of its vote is an own ballot of
/// the node above what it has started.
fn is_covered(n: usize, node: usize, started: u16, other: Kept) -> bool
    requires { 0 < n }
    ensures { IsTrue result ↔ IsCovered n node started other }
{
    let below = match other.accepted() {
        None => true,
        Some(vote) => is_started(n, node, started, vote.ballot),
    };
    below && is_started(n, node, started, other.promised())
}

/// Whether the ballot is not an own one of the node above what it has started.
fn is_started(n: usize, node: usize, started: u16, ballot: u16) -> bool
    requires { 0 < n }
    ensures { IsTrue result ↔ (Owns n node ballot → ballot ≤ started) }
{
    ballot <= started || !owns(n, node, ballot)
}

/// Whether the vote's value has offered, a promise quorum has promised its ballot, and it goes with every
/// other vote.
fn vote_stands(parts: &[Kept], quorums: Quorums, vote: Vote) -> bool
    requires { length parts.now ≡ quorums.nodes }
    ensures { IsTrue result ↔ VoteStands quorums (nodes_of parts.now) vote }
{
    let value = usize::from(vote.value);
    if value >= parts.len() {
        return false;
    }
    let part = parts[value];
    if !part.offered() || !is_promise_quorum(quorums, count_promised(parts, vote.ballot)) {
        return false;
    }
    for other in parts {
        if !agrees(parts, quorums, vote, *other) {
            return false;
        }
    }
    true
}

/// Whether the vote goes with that of the other part, if it has one.
fn agrees(parts: &[Kept], quorums: Quorums, vote: Vote, other: Kept) -> bool
    requires { length parts.now ≡ quorums.nodes }
    ensures { IsTrue result ↔ IfSome other.accepted (PairSettled quorums (nodes_of parts.now) vote) }
{
    match other.accepted() {
        None => true,
        Some(lower) => pair_settled(parts, quorums, vote, lower),
    }
}

/// Whether two votes of one ballot have one value, and the second, where it has a lower ballot and
/// another value, can no more be chosen.
fn pair_settled(parts: &[Kept], quorums: Quorums, vote: Vote, lower: Vote) -> bool
    requires { length parts.now ≡ quorums.nodes }
    ensures { IsTrue result ↔ PairSettled quorums (nodes_of parts.now) vote lower }
{
    if lower.value == vote.value || lower.ballot > vote.ballot {
        return true;
    }
    lower.ballot < vote.ballot && is_promise_quorum(quorums, count_passed(parts, lower))
}

/// How many nodes have promised at least the ballot.
fn count_promised(parts: &[Kept], ballot: u16) -> usize
    ensures { result ≡ count_below (length parts.now) (λ a. has_promised ballot (nodes_of parts.now a)) }
{
    let mut count = 0;
    for part in parts {
        if part.promised() >= ballot {
            count += 1;
        }
    }
    count
}

/// How many nodes have promised above the vote's ballot, and do not hold the vote.
fn count_passed(parts: &[Kept], vote: Vote) -> usize
    ensures { result ≡ count_below (length parts.now) (λ a. has_passed vote (nodes_of parts.now a)) }
{
    let mut count = 0;
    for part in parts {
        if is_past(*part, vote) {
            count += 1;
        }
    }
    count
}

/// Whether the node has promised above the vote's ballot, and does not hold the vote.
fn is_past(part: Kept, vote: Vote) -> bool
    ensures { result ≡ has_passed vote part }
{
    part.promised() > vote.ballot && part.accepted() != Some(vote)
}
