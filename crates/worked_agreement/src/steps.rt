//! The steps of the protocol's slow reference.

use crate::words::{message_told, node_of, numbers, quorums_of};
use paxos_core_world::kept::Kept;
use paxos_reference::label::Label;
use paxos_reference::world::World;
use std::alloc::Global;
use worked_row_files::{fine, owned, some};

/// The step of a node alone.
fn label_of_one(kind: &str, node: u8) -> Option<Label> {
    match kind {
        "offers" => Some(Label::Offers(node)),
        "restarts" => Some(Label::Restarts(node)),
        _ => None,
    }
}

/// The step that has a ballot, or a value that is learned.
fn label_of_two(kind: &str, first: u16, second: u16) -> Option<Label> {
    let node = node_of(first);
    match kind {
        "starts" => Some(Label::Starts(node, second)),
        "promises" => Some(Label::Promises(node, second)),
        "proposes" => Some(Label::Proposes(first, second)),
        "learns" => Some(Label::Learns(node, second)),
        _ => None,
    }
}

/// The step with these numbers.
fn label_with(kind: &str, numbers: &[u16]) -> Option<Label> {
    match numbers {
        [node] => label_of_one(kind, node_of(*node)),
        [first, second] => label_of_two(kind, *first, *second),
        [node, ballot, value] => Some(Label::Accepts(node_of(*node), *ballot, *value)),
        _ => None,
    }
}

/// The step that is spelled so.
fn label_of(alloc: Global, text: &str) -> Option<Label> {
    let (kind, rest) = some!(text.split_once(' '));
    label_with(kind, &some!(numbers(alloc, rest, ' ')))
}

/// Takes the step where it is allowed, and tells the message that it sends.
fn step_told(alloc: Global, world: &mut World, step: &str) -> Option<String> {
    let label = some!(label_of(alloc, step));
    if !world.allows(&label) {
        return owned(alloc, "no");
    }
    let before = world.sent.len();
    fine!(world.take(&label));
    match world.sent.first() {
        Some(message) if world.sent.len() > before => message_told(alloc, *message),
        _ => owned(alloc, "yes"),
    }
}

/// What is told of each step from the opening of a room with quorums of these sizes.
pub fn steps_told(alloc: Global, question: &str) -> Option<String> {
    let (sizes, steps) = some!(question.split_once(' '));
    let quorums = some!(quorums_of(alloc, sizes));
    let parts = [Kept::nothing(); 7];
    let parts = some!(parts.get(..usize::from(quorums.nodes())));
    let mut world = fine!(World::opening(alloc, parts, quorums));
    let mut told = String::new(alloc);
    for step in steps.split(';') {
        let answer = some!(step_told(alloc, &mut world, step));
        fine!(write!(told, "{answer};"));
    }
    Some(told)
}
