ghost use Rattle.std.specs.Prelude.{◌≡◌, OnErr, OnOk};
ghost use Rattle.paxos_core_world.specs.Step.{Accepts, Allowed, Learns, Offers, Promises, Proposes, Starts, after};
ghost use Rattle.paxos_reference.specs.Listed.{label_of, world_of};

use crate::label::Label;
use crate::shown::push_front;
use crate::world::World;
use paxos_core_world::msg::Msg;
use paxos_core_world::vote::Vote;
use std::alloc::AllocError;

impl World {
    /// Takes the step, which is allowed in this world.
    pub fn take(&mut self, label: &Label) -> Result<(), AllocError>
        requires { Allowed self.old.quorums (world_of self.old) (label_of label.now) }
        ensures ok { OnOk result (world_of self.new ≡ after (world_of self.old) (label_of label.now)) }
        ensures err { OnErr result (world_of self.new ≡ world_of self.old) }
        ensures quorums { self.new.quorums ≡ self.old.quorums }
    {
        match *label {
            Label::Offers(node) => {
                self.offer(node);
                Ok(())
            }
            Label::Starts(node, ballot) => self.start(node, ballot),
            Label::Promises(node, ballot) => self.promise(node, ballot),
            Label::Proposes(ballot, value) => self.propose(ballot, value),
            Label::Accepts(node, ballot, value) => self.accept(node, Vote { ballot, value }),
            Label::Learns(node, value) => push_front(&mut self.learned, (node, value)),
            Label::Restarts(_) => Ok(()),
        }
    }

    fn offer(&mut self, node: u8)
        requires { Allowed self.old.quorums (world_of self.old) (Offers node) }
        ensures world { world_of self.new ≡ after (world_of self.old) (Offers node) }
        ensures quorums { self.new.quorums ≡ self.old.quorums }
    {
        let node = usize::from(node);
        let part = self.nodes[node];
        self.nodes[node] = part.with_offer();
    }

    fn start(&mut self, node: u8, ballot: u16) -> Result<(), AllocError>
        requires { Allowed self.old.quorums (world_of self.old) (Starts node ballot) }
        ensures ok { OnOk result (world_of self.new ≡ after (world_of self.old) (Starts node ballot)) }
        ensures err { OnErr result (world_of self.new ≡ world_of self.old) }
        ensures quorums { self.new.quorums ≡ self.old.quorums }
    {
        let node = usize::from(node);
        let part = self.nodes[node];
        push_front(&mut self.begun, ballot)?;
        if let Err(full) = push_front(&mut self.sent, Msg::Prepare(ballot)) {
            let _ballot = self.begun.remove(0);
            return Err(full);
        }
        self.nodes[node] = part.with_start(ballot);
        Ok(())
    }

    fn promise(&mut self, node: u8, ballot: u16) -> Result<(), AllocError>
        requires { Allowed self.old.quorums (world_of self.old) (Promises node ballot) }
        ensures ok { OnOk result (world_of self.new ≡ after (world_of self.old) (Promises node ballot)) }
        ensures err { OnErr result (world_of self.new ≡ world_of self.old) }
        ensures quorums { self.new.quorums ≡ self.old.quorums }
    {
        let place = usize::from(node);
        let part = self.nodes[place];
        push_front(&mut self.sent, Msg::Promise(node, ballot, part.accepted()))?;
        self.nodes[place] = part.with_promise(ballot);
        Ok(())
    }

    fn propose(&mut self, ballot: u16, value: u16) -> Result<(), AllocError>
        requires { Allowed self.old.quorums (world_of self.old) (Proposes ballot value) }
        ensures ok { OnOk result (world_of self.new ≡ after (world_of self.old) (Proposes ballot value)) }
        ensures err { OnErr result (world_of self.new ≡ world_of self.old) }
        ensures quorums { self.new.quorums ≡ self.old.quorums }
    {
        push_front(&mut self.sent, Msg::Propose(ballot, value))
    }

    fn accept(&mut self, node: u8, vote: Vote) -> Result<(), AllocError>
        requires { Allowed self.old.quorums (world_of self.old) (Accepts node vote.ballot vote.value) }
        ensures ok { OnOk result (world_of self.new ≡ after (world_of self.old) (Accepts node vote.ballot vote.value)) }
        ensures err { OnErr result (world_of self.new ≡ world_of self.old) }
        ensures quorums { self.new.quorums ≡ self.old.quorums }
    {
        let place = usize::from(node);
        let part = self.nodes[place];
        push_front(&mut self.sent, Msg::Accepted(node, vote.ballot, vote.value))?;
        self.nodes[place] = part.with_vote(vote);
        Ok(())
    }
}
