//! Random schedules of the nodes of a room, with losses, repeats, delays, restarts and reopenings: each call is a step
//! that the reference allows, or none where it allows none, and sends what the reference sends.

use crate::nodes::{all_nodes, restart};
use crate::words::{numbers, quorums_of};
use paxos_core::Node;
use paxos_core_theorem::settled::settled;
use paxos_core_world::kept::Kept;
use paxos_core_world::msg::Msg;
use paxos_core_world::quorum::Quorums;
use paxos_reference::label::Label;
use paxos_reference::world::World;
use rand_core::utils::NextWord;
use rand_pcg::Pcg32;
use std::alloc::Global;
use worked_row_files::{fine, numbered, owned, some};

/// A call of a node, but a restart.
#[derive(Clone, Copy)]
enum Call {
    Offer,
    Start,
    Propose,
    On(Msg),
}

/// What is done next in a room.
#[derive(Clone, Copy)]
enum Turn {
    Call(Call),
    Restart,
    Reopen,
}

/// The nodes of a room, its quorums, the reference world in which they move, and the value that any of them ever learned.
#[derive(Drop)]
struct Room {
    quorums: Quorums,
    nodes: Vec<Node>,
    world: World,
    learned: Option<u16>,
}

impl Room {
    fn new(alloc: Global, quorums: Quorums) -> Option<Room> {
        let parts = [Kept::nothing(); 7];
        let parts = some!(parts.get(..usize::from(quorums.nodes())));
        Some(Room {
            quorums,
            nodes: some!(all_nodes(alloc, quorums)),
            world: fine!(World::opening(alloc, parts, quorums)),
            learned: None,
        })
    }

    /// Takes the step in the reference, if it is allowed there, and what is learned is what was learned before.
    fn step(&mut self, label: Label) -> Option<()> {
        if !self.world.allows(&label) {
            return None;
        }
        fine!(self.world.take(&label));
        match label {
            Label::Learns(_, value) if *self.learned.get_or_insert(value) != value => None,
            _ => Some(()),
        }
    }

    /// Makes a call of a node, if the reference agrees with what it does and answers, and with what is kept.
    fn call(&mut self, place: usize, call: Call) -> Option<()> {
        let node = some!(self.nodes.get_mut(place));
        let me = node.me();
        let (answer, taken) = answer_of(node, call);
        let kept = node.kept();
        match taken {
            Some(label) => some!(self.step(label)),
            None => some!(self.is_allowed_none(step_asked(me, call))),
        }
        let is_sent = answer.is_none() || self.world.sent.first().copied() == answer;
        let is_kept = self.world.nodes.get(place).copied() == Some(kept);
        (is_sent && is_kept).then_some(())
    }

    /// Nothing, if the reference does not allow the step.
    fn is_allowed_none(&self, label: Option<Label>) -> Option<()> {
        match label {
            Some(label) if self.world.allows(&label) => None,
            _ => Some(()),
        }
    }

    fn restart(&mut self, place: usize) -> Option<()> {
        let me = some!(self.nodes.get(place)).me();
        some!(restart(&mut self.nodes, place, None));
        self.step(Label::Restarts(me))
    }

    /// All nodes restart, and the messages are forgotten but for those that the kept parts show.
    fn reopen(&mut self, alloc: Global) -> Option<()> {
        for place in 0..self.nodes.len() {
            some!(self.restart(place));
        }
        let parts = &self.world.nodes;
        let quorums = self.quorums;
        if parts.len() != usize::from(quorums.nodes()) || !settled(parts, quorums) {
            return None;
        }
        self.world = fine!(World::opening(alloc, parts, quorums));
        Some(())
    }

    fn turn(&mut self, alloc: Global, draws: &mut Pcg32) -> Option<()> {
        let place = place_below(draws, self.nodes.len());
        match random_turn(draws, &self.world.sent) {
            Turn::Call(call) => self.call(place, call),
            Turn::Restart => self.restart(place),
            Turn::Reopen => self.reopen(alloc),
        }
    }
}

/// What the node answers, and the step of the protocol that the call then was.
fn answer_of(node: &mut Node, call: Call) -> (Option<Msg>, Option<Label>) {
    let me = node.me();
    let before = node.learned();
    let answer = match call {
        Call::Offer => return (None, node.offer().then_some(Label::Offers(me))),
        Call::Start => node.start().ok(),
        Call::Propose => node.propose(),
        Call::On(message) => node.on(&message),
    };
    let label = match (answer, before, node.learned()) {
        (Some(message), _, _) => Some(label_of(me, message)),
        (None, None, Some(value)) => Some(Label::Learns(me, u16::from(value))),
        _ => None,
    };
    (answer, label)
}

/// The step of node `me` by which the message is sent.
fn label_of(me: u8, message: Msg) -> Label {
    match message {
        Msg::Prepare(ballot) => Label::Starts(me, ballot),
        Msg::Promise(_, ballot, _) => Label::Promises(me, ballot),
        Msg::Propose(ballot, value) => Label::Proposes(ballot, value),
        Msg::Accepted(_, ballot, value) => Label::Accepts(me, ballot, value),
    }
}

/// The step that the call asks of node `me`, where the node knows all that the step needs.
fn step_asked(me: u8, call: Call) -> Option<Label> {
    match call {
        Call::Offer => Some(Label::Offers(me)),
        Call::On(Msg::Prepare(ballot)) => Some(Label::Promises(me, ballot)),
        Call::On(Msg::Propose(ballot, value)) => Some(Label::Accepts(me, ballot, value)),
        _ => None,
    }
}

/// Mostly a recent message is handed over, at times an old one.
fn random_turn(draws: &mut Pcg32, sent: &[Msg]) -> Turn {
    match draws.next_word() % 512 {
        0 => Turn::Restart,
        1 if draws.next_word() % 4 == 0 => Turn::Reopen,
        2..=9 => Turn::Call(Call::Offer),
        10..=13 => Turn::Call(Call::Start),
        14..=63 => Turn::Call(Call::Propose),
        64..=127 => hand_one_of(draws, sent, sent.len()),
        _ => hand_one_of(draws, sent, sent.len().min(12)),
    }
}

/// Hands over one of the newest messages.
fn hand_one_of(draws: &mut Pcg32, sent: &[Msg], newest: usize) -> Turn {
    match sent.get(place_below(draws, newest)) {
        Some(message) => Turn::Call(Call::On(*message)),
        None => Turn::Call(Call::Start),
    }
}

/// A place below the count, 0 where there is none.
fn place_below(draws: &mut Pcg32, count: usize) -> usize {
    draws.next_word() as usize % count.max(1)
}

/// Plays one schedule of so many turns, if the nodes and the reference agree in all. Whether a value was learned.
fn play(alloc: Global, quorums: Quorums, stream: u64, turns: u16) -> Option<bool> {
    let mut words = Pcg32::new(1, stream);
    let mut room = some!(Room::new(alloc, quorums));
    for _ in 0..turns {
        some!(room.turn(alloc, &mut words));
    }
    Some(room.learned.is_some())
}

/// Plays schedules, one for each stream of the generator: in how many of them a value is learned, or the first in which the nodes
/// and the reference differ.
fn played(alloc: Global, quorums: Quorums, streams: u16, turns: u16) -> Result<u16, u16> {
    let mut learned = 0u16;
    for stream in 0..streams {
        match play(alloc, quorums, u64::from(stream), turns) {
            Some(true) => learned = learned.saturating_add(1),
            Some(false) => {}
            None => return Err(stream),
        }
    }
    Ok(learned)
}

/// The quorums of the sizes that are asked for, how many schedules, and of how many turns each.
fn asked(alloc: Global, question: &str) -> Option<(Quorums, u16, u16)> {
    let (sizes, counts) = some!(question.split_once(' '));
    let counts = some!(numbers(alloc, counts, ' '));
    match counts.as_slice() {
        [streams, turns] => Some((some!(quorums_of(alloc, sizes)), *streams, *turns)),
        _ => None,
    }
}

/// What is told of random schedules: whether in more than half of them a value is learned.
pub fn random_told(alloc: Global, question: &str) -> Option<String> {
    let (quorums, streams, turns) = some!(asked(alloc, question));
    match played(alloc, quorums, streams, turns) {
        Ok(learned) if learned > streams / 2 => owned(alloc, "learned"),
        Ok(learned) => numbered(alloc, "learned in ", u64::from(learned)),
        Err(stream) => numbered(alloc, "differs in ", u64::from(stream)),
    }
}

/// The same, whether a value is learned or not.
pub fn alike_told(alloc: Global, question: &str) -> Option<String> {
    let (quorums, streams, turns) = some!(asked(alloc, question));
    match played(alloc, quorums, streams, turns) {
        Ok(_learned) => owned(alloc, "alike"),
        Err(stream) => numbered(alloc, "differs in ", u64::from(stream)),
    }
}
