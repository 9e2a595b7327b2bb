//! Nodes, call by call.

use crate::kept_parts::entries_told;
use crate::nodes::{all_nodes, restart};
use crate::words::{message_of, message_told, quorums_of, yes_or_no};
use paxos_core::Node;
use paxos_core_world::kept::Kept;
use paxos_core_world::msg::Msg;
use paxos_core_world::quorum::Quorums;
use std::alloc::Global;
use worked_row_files::{fine, numbered, owned, some};

/// A message that a node answers, or `no`.
fn answer_told(alloc: Global, answer: Option<Msg>) -> Option<String> {
    match answer {
        Some(message) => message_told(alloc, message),
        None => owned(alloc, "no"),
    }
}

/// What a node answers to the start of a ballot.
fn start_told(alloc: Global, node: &mut Node) -> Option<String> {
    match node.start() {
        Ok(message) => message_told(alloc, message),
        Err(fault) => numbered(alloc, "", u64::from(fault.number())),
    }
}

/// What a node has learned, or `no`.
fn learned_told(alloc: Global, node: &Node) -> Option<String> {
    match node.learned() {
        Some(value) => numbered(alloc, "", u64::from(value)),
        None => owned(alloc, "no"),
    }
}

/// The part of a node that has started and promised this ballot, and kept nothing else.
fn opened_at(ballot: &str) -> Option<Kept> {
    let ballot = fine!(ballot.parse());
    Kept::of(false, ballot, ballot, None)
}

/// What a restarted node has kept.
fn restart_told(
    alloc: Global,
    nodes: &mut Vec<Node>,
    place: usize,
    given: Option<Kept>,
) -> Option<String> {
    some!(restart(nodes, place, given));
    entries_told(alloc, some!(nodes.get(place)).kept())
}

/// What the nodes answer to a call.
fn call_told(alloc: Global, nodes: &mut Vec<Node>, call: &str) -> Option<String> {
    let (kind, rest) = some!(call.split_once(' '));
    let (node, rest) = rest.split_once(' ').unwrap_or((rest, ""));
    let place: usize = fine!(node.parse());
    match kind {
        "again" => restart_told(alloc, nodes, place, None),
        "opened" => restart_told(alloc, nodes, place, Some(some!(opened_at(rest)))),
        _ => node_told(alloc, some!(nodes.get_mut(place)), kind, rest),
    }
}

/// What a node answers to a call other than a restart.
fn node_told(alloc: Global, node: &mut Node, kind: &str, rest: &str) -> Option<String> {
    match kind {
        "offer" => owned(alloc, yes_or_no(node.offer())),
        "start" => start_told(alloc, node),
        "propose" => answer_told(alloc, node.propose()),
        "learned" => learned_told(alloc, node),
        "on" => answer_told(alloc, node.on(&some!(message_of(alloc, rest)))),
        _ => None,
    }
}

/// What the nodes of a room with these quorums answer to the calls.
fn answers_told(alloc: Global, quorums: Quorums, calls: &str) -> Option<String> {
    let mut nodes = some!(all_nodes(alloc, quorums));
    let mut told = String::new(alloc);
    for call in calls.split(';') {
        let answer = some!(call_told(alloc, &mut nodes, call));
        fine!(write!(told, "{answer};"));
    }
    Some(told)
}

/// What the nodes of a room answer to the calls.
pub fn calls_told(alloc: Global, question: &str) -> Option<String> {
    let (sizes, calls) = some!(question.split_once(' '));
    answers_told(alloc, some!(quorums_of(alloc, sizes)), calls)
}
