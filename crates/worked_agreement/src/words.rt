//! Numbers, messages and answers as words.

use paxos_core_world::msg::Msg;
use paxos_core_world::quorum::Quorums;
use paxos_core_world::vote::Vote;
use std::alloc::Global;
use worked_row_files::{fine, owned, some};

/// The numbers of a list with this sign between.
pub fn numbers(alloc: Global, text: &str, between: char) -> Option<Vec<u16>> {
    let mut all = Vec::new(alloc);
    for word in text.split(between) {
        fine!(all.push(fine!(word.parse())));
    }
    Some(all)
}

/// A node's number.
pub fn node_of(number: u16) -> u8 {
    u8::try_from(number).unwrap_or(u8::MAX)
}

/// The quorums of these sizes, `N` or `N,Q1,Q2`: the number of nodes alone stands for majorities.
pub fn quorums_of(alloc: Global, text: &str) -> Option<Quorums> {
    let sizes = some!(numbers(alloc, text, ','));
    match sizes.as_slice() {
        [nodes] => Quorums::majorities(node_of(*nodes)),
        [nodes, promise, accept] => {
            Quorums::of(node_of(*nodes), node_of(*promise), node_of(*accept))
        }
        _ => None,
    }
}

/// A vote; ballot 0 stands for none.
fn vote_of(ballot: u16, value: u16) -> Option<Vote> {
    (ballot != 0).then_some(Vote { ballot, value })
}

/// The message with these numbers.
fn message_with(numbers: &[u16]) -> Option<Msg> {
    match numbers {
        [ballot] => Some(Msg::Prepare(*ballot)),
        [ballot, value] => Some(Msg::Propose(*ballot, *value)),
        [from, ballot, value] => Some(Msg::Accepted(node_of(*from), *ballot, *value)),
        [from, ballot, voted, value] => Some(Msg::Promise(
            node_of(*from),
            *ballot,
            vote_of(*voted, *value),
        )),
        _ => None,
    }
}

/// The message that is spelled so.
pub fn message_of(alloc: Global, text: &str) -> Option<Msg> {
    let (kind, rest) = some!(text.split_once(' '));
    let message = some!(message_with(&some!(numbers(alloc, rest, ' '))));
    if kind_of(message) == kind {
        Some(message)
    } else {
        None
    }
}

/// The word for a message.
fn kind_of(message: Msg) -> &'static str {
    match message {
        Msg::Prepare(_) => "prepare",
        Msg::Promise(_, _, _) => "promise",
        Msg::Propose(_, _) => "propose",
        Msg::Accepted(_, _, _) => "accepted",
    }
}

/// The spelling of a message.
pub fn message_told(alloc: Global, message: Msg) -> Option<String> {
    let kind = kind_of(message);
    let numbers = match message {
        Msg::Prepare(ballot) => [ballot, 0, 0, 0],
        Msg::Promise(from, ballot, None) => [u16::from(from), ballot, 0, 0],
        Msg::Promise(from, ballot, Some(vote)) => [
            u16::from(from),
            ballot,
            vote.ballot,
            vote.value,
        ],
        Msg::Propose(ballot, value) => [ballot, value, 0, 0],
        Msg::Accepted(from, ballot, value) => [u16::from(from), ballot, value, 0],
    };
    let count = match message {
        Msg::Prepare(_) => 1,
        Msg::Propose(_, _) => 2,
        Msg::Accepted(_, _, _) => 3,
        Msg::Promise(_, _, _) => 4,
    };
    let mut told = some!(owned(alloc, kind));
    for number in &numbers[..count] {
        fine!(write!(told, " {number}"));
    }
    Some(told)
}

/// The words `yes` and `no`.
pub fn yes_or_no(is_so: bool) -> &'static str {
    if is_so { "yes" } else { "no" }
}
