ghost use Rattle.std.specs.Prelude.{◌≡◌, ◌<◌, ℕ, ◌+◌, ◌^◌, ◌++◌, ◌∷◌, [], IfOk, OnOk, IfSome, length, slice_get, Some};
ghost use Rattle.paxos_core.specs.Call.{Offer, On, Proposal, Restart, Start};
ghost use Rattle.cfarm_sim.specs.declared.told.Told.TheVariants as Told;
ghost use Rattle.cfarm_sim.specs.Noted.{has_noted, has_vote};
ghost use Rattle.paxos_core_node_steps.specs.Learner.{is_under_way};
ghost use Rattle.cfarm_sim.specs.Rooms.{after_call_of, learning, node_at, room_of, start, told_at};

use crate::told::Told;
use lang_base::NoMemory;
use paxos_core::Node;
use paxos_core_world::msg::Msg;
use paxos_core_world::quorum::Quorums;
use paxos_core_world::vote::Vote;
use std::alloc::Global;
use std::marker::Model;

/// The nodes of a room, and the messages that they sent, the oldest first.
#[derive(Drop)]
pub struct Room {
    quorums: Quorums,
    nodes: Vec<Node>,
    sent: Vec<Msg>,
}

impl Model for Room {
    ghost use Rattle.std.specs.Prelude.{◌≡◌, length};
    ghost use Rattle.cfarm_sim.specs.Rooms.{Listed};

    ghost Value = { Listed };

    ghost view = { λ r. record { quorums = r.quorums; nodes = r.nodes.items; sent = r.sent.items } };

    ghost invariant = { λ r. length r.nodes.items ≡ r.quorums.nodes };
}

impl Room {
    /// A room with these quorums whose nodes have done nothing.
    pub fn new(alloc: Global, quorums: Quorums) -> Result<Room, NoMemory>
        ensures quorums { IfOk result (λ room. room.quorums ≡ quorums) }
        ensures start { IfOk result (λ room. room_of room ≡ start quorums) }
    {
        let mut nodes = Vec::new(alloc);
        for me in 0..quorums.nodes() {
            nodes.push(Node::new(me, quorums))?;
        }
        Ok(Room {
            quorums,
            nodes,
            sent: Vec::new(alloc),
        })
    }

    /// How many nodes it has.
    pub fn count(&self) -> u8
        ensures count { result ≡ self.now.quorums.nodes }
        ensures nodes { length self.now.nodes ≡ self.now.quorums.nodes }
    {
        self.quorums.nodes()
    }

    /// What the type keeps, for a caller's proof.
    pub fn known(&self)
        ensures count { self.now.quorums.nodes < 256 }
        ensures sent { length self.now.sent < 2 ^ 64 }
    {
        let _count = self.quorums.nodes();
        let _sent = self.sent.len();
    }

    /// The message with this number, counted from 0.
    pub fn message(&self, number: u64) -> Option<Msg>
        ensures { result ≡ slice_get self.now.sent number }
    {
        self.sent.get(number as usize).copied()
    }

    /// What the node has learned since its last restart.
    pub(crate) fn learned(&self, node: u8) -> Option<u8>
        requires { node < self.now.quorums.nodes }
        ensures { result ≡ (node_at self.now node).learned }
    {
        self.nodes[usize::from(node)].learned()
    }

    /// Whether the node has noted the message, as it stands: a promise for the ballot that it has under way, or a vote.
    pub fn has_noted(&self, node: u8, message: &Msg) -> bool
        requires { node < self.now.quorums.nodes }
        ensures { result ≡ has_noted (node_at self.now node) message.now }
    {
        let seen = &self.nodes[usize::from(node)];
        match *message {
            Msg::Promise(_, ballot, _) => is_under_way(seen.ballot(), ballot),
            Msg::Accepted(from, ballot, value) => has_vote(seen, from, Vote { ballot, value }),
            Msg::Prepare(_) | Msg::Propose(_, _) => false,
        }
    }

    pub(crate) fn offer(&mut self, node: u8) -> Told
        requires { node < self.old.quorums.nodes }
        ensures state { self.new ≡ after_call_of self.old node Offer }
        ensures told { result ≡ told_at self.old node Offer }
    {
        if self.nodes[usize::from(node)].offer() {
            Told::Offered
        } else {
            Told::Nothing
        }
    }

    pub(crate) fn start(&mut self, node: u8) -> Result<Told, NoMemory>
        requires { node < self.old.quorums.nodes }
        ensures state { OnOk result (self.new ≡ after_call_of self.old node Start) }
        ensures told { IfOk result (λ told. told ≡ told_at self.old node Start) }
        ensures quorums { self.new.quorums ≡ self.old.quorums }
    {
        match self.nodes[usize::from(node)].start() {
            Ok(message) => self.send(node, message),
            Err(_) => Ok(Told::Refused),
        }
    }

    pub(crate) fn propose(&mut self, node: u8) -> Result<Told, NoMemory>
        requires { node < self.old.quorums.nodes }
        ensures state { OnOk result (self.new ≡ after_call_of self.old node Proposal) }
        ensures told { IfOk result (λ told. told ≡ told_at self.old node Proposal) }
        ensures quorums { self.new.quorums ≡ self.old.quorums }
    {
        match self.nodes[usize::from(node)].propose() {
            Some(message) => self.send(node, message),
            None => Ok(Told::Nothing),
        }
    }

    /// The node forgets all but what it keeps.
    pub(crate) fn restart(&mut self, node: u8) -> Told
        requires { node < self.old.quorums.nodes }
        ensures state { self.new ≡ after_call_of self.old node Restart }
        ensures told { result ≡ told_at self.old node Restart }
    {
        self.nodes[usize::from(node)].forget();
        Told::Restarted
    }

    pub(crate) fn deliver(&mut self, node: u8, message: Msg) -> Result<Told, NoMemory>
        requires { node < self.old.quorums.nodes }
        ensures state { OnOk result (self.new ≡ after_call_of self.old node (On message)) }
        ensures told { IfOk result (λ told. told ≡ told_at self.old node (On message)) }
        ensures quorums { self.new.quorums ≡ self.old.quorums }
    {
        let before = self.nodes[usize::from(node)].learned();
        match self.nodes[usize::from(node)].on(&message) {
            Some(answer) => self.send(node, answer),
            None => Ok(learning(before, self.nodes[usize::from(node)].learned())),
        }
    }

    /// The message is sent, behind all others.
    fn send(&mut self, node: u8, message: Msg) -> Result<Told, NoMemory>
        ensures state { OnOk result (self.new ≡ record self.old { sent = self.old.sent ++ message ∷ [] }) }
        ensures told { IfOk result (λ told. told ≡ Told.Sent (length self.old.sent + 1) node message) }
        ensures quorums { self.new.quorums ≡ self.old.quorums }
    {
        let number = self.sent.len() as u64 + 1;
        self.sent.push(message)?;
        Ok(Told::Sent(number, node, message))
    }
}

/// Whether the ballot is the one under way.
fn is_under_way(current: Option<u16>, ballot: u16) -> bool
    ensures { result ≡ is_under_way current ballot }
{
    match current {
        Some(current) => current == ballot,
        None => false,
    }
}

/// Whether just this vote of node `from` is noted.
fn has_vote(node: &Node, from: u8, vote: Vote) -> bool
    ensures { result ≡ has_vote node.now from vote }
{
    node.has_noted(from, vote)
}

/// What is told of a message that is not answered.
fn learning(before: Option<u8>, after: Option<u8>) -> Told
    ensures { result ≡ learning before after }
{
    match (before, after) {
        (None, Some(value)) => Told::Learned(value),
        _ => Told::Nothing,
    }
}
