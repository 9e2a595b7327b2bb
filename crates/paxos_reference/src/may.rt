ghost use Rattle.std.specs.Prelude.{◌≡◌, ◌↔◌, ◌<◌, ◌≤◌, IsTrue};
ghost use Rattle.paxos_core_world.specs.Ballot.{Owns};
ghost use Rattle.paxos_core_world.specs.Step.{Accepts, Allowed, HasOffered, IsSafeChoice, Learns, Offers, Promises, Proposes, Starts};
ghost use Rattle.paxos_core_world.specs.World.{Has, nodes_of};
ghost use Rattle.paxos_reference.specs.Listed.{label_of, world_of};
ghost use Rattle.paxos_reference.specs.Tests.{IsFree};

use crate::label::Label;
use crate::sent::{is_adopted, is_chosen, is_prepared, is_promised, is_proposed, is_unproposed};
use crate::world::World;

impl World {
    /// Whether the step is allowed in this world.
    pub fn allows(&self, label: &Label) -> bool
        ensures { IsTrue result ↔ Allowed self.now.quorums (world_of self.now) (label_of label.now) }
    {
        match *label {
            Label::Offers(node) => self.may_offer(node),
            Label::Starts(node, ballot) => self.may_start(node, ballot),
            Label::Promises(node, ballot) => self.may_promise(node, ballot),
            Label::Proposes(ballot, value) => self.may_propose(ballot, value),
            Label::Accepts(node, ballot, value) => self.may_accept(node, ballot, value),
            Label::Learns(node, value) => self.may_learn(node, value),
            Label::Restarts(node) => node < self.quorums.nodes(),
        }
    }

    /// A node offers once.
    fn may_offer(&self, node: u8) -> bool
        ensures { IsTrue result ↔ Allowed self.now.quorums (world_of self.now) (Offers node) }
    {
        if node >= self.quorums.nodes() {
            return false;
        }
        let part = self.nodes[usize::from(node)];
        !part.offered()
    }

    /// A ballot is started by its owner, above those that it has started.
    fn may_start(&self, node: u8, ballot: u16) -> bool
        ensures { IsTrue result ↔ Allowed self.now.quorums (world_of self.now) (Starts node ballot) }
    {
        let count = self.quorums.nodes();
        if node >= count {
            return false;
        }
        let part = self.nodes[usize::from(node)];
        owns(usize::from(count), usize::from(node), ballot) && part.started() < ballot
    }

    /// A ballot that was asked for is promised above those that the node has promised.
    fn may_promise(&self, node: u8, ballot: u16) -> bool
        ensures { IsTrue result ↔ Allowed self.now.quorums (world_of self.now) (Promises node ballot) }
    {
        if node >= self.quorums.nodes() {
            return false;
        }
        let part = self.nodes[usize::from(node)];
        is_prepared(&self.sent, ballot) && part.promised() < ballot
    }

    /// Under a begun ballot one value is proposed, a safe one.
    fn may_propose(&self, ballot: u16, value: u16) -> bool
        ensures { IsTrue result ↔ Allowed self.now.quorums (world_of self.now) (Proposes ballot value) }
    {
        if !is_begun(&self.begun, ballot) {
            return false;
        }
        is_unproposed(&self.sent, ballot) && self.is_safe_choice(ballot, value)
    }

    /// What was proposed is accepted, unless the node has promised above its ballot.
    fn may_accept(&self, node: u8, ballot: u16, value: u16) -> bool
        ensures { IsTrue result ↔ Allowed self.now.quorums (world_of self.now) (Accepts node ballot value) }
    {
        if node >= self.quorums.nodes() {
            return false;
        }
        let part = self.nodes[usize::from(node)];
        is_proposed(&self.sent, ballot, value) && part.promised() <= ballot
    }

    /// What an accept quorum voted for under one ballot is learned.
    fn may_learn(&self, node: u8, value: u16) -> bool
        ensures { IsTrue result ↔ Allowed self.now.quorums (world_of self.now) (Learns node value) }
    {
        node < self.quorums.nodes() && is_chosen(&self.sent, self.quorums, value)
    }

    /// Whether the value is that of the highest vote that a promise quorum reports, or free to choose.
    fn is_safe_choice(&self, ballot: u16, value: u16) -> bool
        ensures { IsTrue result ↔ IsSafeChoice self.now.quorums (world_of self.now) ballot value }
    {
        let adopted = is_adopted(&self.sent, self.quorums, ballot, value);
        adopted || self.is_free(ballot, value)
    }

    /// Whether a promise quorum reports no vote, and the value's node has offered.
    fn is_free(&self, ballot: u16, value: u16) -> bool
        ensures { IsTrue result ↔ IsFree self.now.quorums (world_of self.now) ballot value }
    {
        if !self.has_offered(value) {
            return false;
        }
        is_promised(&self.sent, self.quorums, ballot, None)
    }

    /// Whether the value is a node that has offered.
    fn has_offered(&self, value: u16) -> bool
        ensures { IsTrue result ↔ HasOffered self.now.quorums.nodes (nodes_of self.now.nodes.items) value }
    {
        if value >= u16::from(self.quorums.nodes()) {
            return false;
        }
        let part = self.nodes[usize::from(value)];
        part.offered()
    }
}

/// Whether the node is the ballot's owner.
fn owns(count: usize, node: usize, ballot: u16) -> bool
    requires { 0 < count }
    ensures { IsTrue result ↔ Owns count node ballot }
{
    ballot != 0 && usize::from(ballot) % count == node
}

/// Whether the ballot was begun.
fn is_begun(begun: &[u16], ballot: u16) -> bool
    ensures { IsTrue result ↔ Has ballot begun.now }
{
    begun.iter().any(|started| *started == ballot)
}
