ghost use Rattle.std.specs.Prelude.{◌≡◌, ℕ, ◌<◌, ◌≤◌, ◌↔◌, IsTrue, IsErr, IsNone, OnErr, IfOk, Some, None, SomeIff, false};
ghost use Rattle.paxos_core.specs.Noting.{TakesItsSteps};
ghost use Rattle.paxos_core_world.specs.KeptPart.{nothing_kept};
ghost use Rattle.paxos_core_world.specs.World.{World};
ghost use Rattle.paxos_core_world.specs.declared.msg.Msg.TheVariants.{Accepted, Prepare, Promise};
ghost use Rattle.paxos_core_late_offers.specs.Act.TheVariants.{Propose};
ghost use Rattle.paxos_core_late_offers.specs.Acceptor.{promise_to, after_prepare, vote_for, after_propose, is_vote};
ghost use Rattle.paxos_core_late_offers.specs.Learner.{after_promise, after_vote, is_at_most, is_report};
ghost use Rattle.paxos_core_late_offers.specs.Message.{reply, after_message};
ghost use Rattle.paxos_core_late_offers.specs.NextBallot.{IsLeastAbove, IsSpent};
ghost use Rattle.paxos_core_world.specs.Quorum.{AreQuorums, Sizes};
ghost use Rattle.paxos_core_late_offers.specs.Notes.{note_of};
ghost use Rattle.paxos_core_late_offers.specs.NodeState.{new_node, node_with, offered, restarted};
ghost use Rattle.paxos_core_late_offers.specs.Belongs.{Belongs};
ghost use Rattle.paxos_core_late_offers.specs.Taken.{taken_by_offer, taken_by_start, taken_by_propose, taken_by_restart, taken_on, LearnsAtMost};
ghost use Rattle.paxos_core_late_offers.specs.Takes.{Takes, TakesSteps, TakesStepsOn};
ghost use Rattle.paxos_core_late_offers.specs.Proposer.{floor_of, next_ballot, started, next_proposal, proposal, after_proposal};
ghost use Rattle.paxos_core_late_offers.specs.Would.{next_promise, next_start, next_vote, would};

use crate::ballot::next_ballot;
use crate::error::CoreError;
use crate::tally::{count_promises, count_votes, highest_report};
use paxos_core_late_offers::step::{Act, Step};
use paxos_core_world::kept::Kept;
use paxos_core_world::msg::Msg;
use paxos_core_world::quorum::{Quorums, is_accept_quorum, is_promise_quorum};
use paxos_core_world::vote::Vote;
use std::marker::Model;

/// A room has at most so many nodes.
pub const MOST_NODES: usize = 7;

/// One node of a room: proposer, acceptor and learner in one. It sends nothing itself; what its calls answer is to be
/// sent to all nodes, itself among them.
#[derive(Clone, Copy, Debug)]
pub struct Node {
    me: u8,
    quorums: Quorums,
    kept: Kept,
    ballot: Option<u16>,
    proposed: bool,
    promises: [Option<Option<Vote>>; MOST_NODES],
    votes: [Option<Vote>; MOST_NODES],
    learned: Option<u8>,
}

impl Model for Node {
    ghost use Rattle.std.specs.Prelude.{◌<◌};
    ghost use Rattle.paxos_core.specs.LearnsAtOnce.{LearnsAtOnce};
    ghost use Rattle.paxos_core_late_offers.specs.NodeState.{NodeState};
    ghost use Rattle.paxos_core_world.specs.Quorum.{AreQuorums};

    ghost Value = { NodeState };

    ghost view = { λ s. record {
      me = s.me;
      quorums = s.quorums;
      kept = s.kept;
      ballot = s.ballot;
      proposed = s.proposed;
      promises = s.promises;
      votes = s.votes;
      learned = s.learned;
    } };

    ghost invariant = { λ s. (s.me < s.quorums.nodes) × AreQuorums s.quorums × LearnsAtOnce s.quorums s.votes s.learned };

    ghost inverse = { λ s. record {
      me = s.me;
      quorums = s.quorums;
      kept = s.kept;
      ballot = s.ballot;
      proposed = s.proposed;
      promises = s.promises;
      votes = s.votes;
      learned = s.learned;
    } };
}

impl Node {
    /// Node `me` of a room with these quorums, which has done nothing yet.
    pub fn new(me: u8, quorums: Quorums) -> Self
        requires { me < quorums.nodes }
        ensures state { result ≡ new_node me quorums }
        ensures belongs { (w : World) → w.nodes me ≡ nothing_kept → Belongs quorums w result }
    {
        Node::with(me, quorums, Kept::nothing())
    }

    /// Its number.
    pub fn me(&self) -> u8
        ensures value { result ≡ self.now.me }
        ensures below { result < self.now.quorums.nodes }
    {
        self.me
    }

    /// How many nodes the room has.
    pub fn count(&self) -> u8
        ensures value { result ≡ self.now.quorums.nodes }
        ensures sizes { AreQuorums self.now.quorums }
    {
        self.quorums.nodes()
    }

    /// The room's quorums.
    pub fn quorums(&self) -> Quorums
        ensures value { result ≡ self.now.quorums }
        ensures sizes { AreQuorums self.now.quorums }
    {
        self.quorums
    }

    /// The ballot under way, that the node started last since its last restart.
    pub fn ballot(&self) -> Option<u16>
        ensures { result ≡ self.now.ballot }
    {
        self.ballot
    }

    /// What has to outlive a restart.
    pub fn kept(&self) -> Kept
        ensures { result ≡ self.now.kept }
    {
        self.kept
    }

    /// The value that the node has learned since its last restart, the number of the node whose offer it is.
    pub fn learned(&self) -> Option<u8>
        ensures { result ≡ self.now.learned }
    {
        self.learned
    }

    /// The node after a restart with what was kept.
    pub fn restart(self, kept: Kept) -> Self
        ensures state { result ≡ restarted self kept }
        ensures step { (q : Sizes) (w : World) → self.me < q.nodes → self.quorums ≡ q → w.nodes self.me ≡ kept
            → Takes q w (taken_by_restart self) result None }
    {
        Node::with(self.me, self.quorums, kept)
    }

    /// Forgets all but what it keeps, as at a restart.
    pub fn forget(&mut self)
        ensures state { self.new ≡ restarted self.old self.old.kept }
        ensures step { TakesSteps self.old self.new (taken_by_restart self.old) None }
    {
        *self = Node::with(self.me, self.quorums, self.kept);
    }

    fn with(me: u8, quorums: Quorums, kept: Kept) -> Self
        requires { me < quorums.nodes }
        ensures { result ≡ node_with me quorums kept }
    {
        let _nodes = quorums.nodes();
        Node {
            me,
            quorums,
            kept,
            ballot: None,
            proposed: false,
            promises: [None; MOST_NODES],
            votes: [None; MOST_NODES],
            learned: None,
        }
    }

    /// Makes the node's offer; false where it had offered.
    pub fn offer(&mut self) -> bool
        ensures answer { IsTrue result ↔ (self.old.kept.offered ≡ false) }
        ensures state { self.new ≡ offered self.old }
        ensures step { TakesSteps self.old self.new (taken_by_offer self.old) None }
    {
        let first = !self.kept.offered();
        self.kept = self.kept.with_offer();
        first
    }

    /// The step that the node would take if it were asked now: none where it would do nothing.
    pub fn would(&self, act: Act) -> Option<Step>
        ensures { result ≡ would self.now act }
    {
        match act {
            Act::Start => Some(Step::Start(self.next_start()?)),
            Act::Promise(ballot) => Some(Step::Promise(self.next_promise(ballot)?)),
            Act::Propose => self.next_propose(),
            Act::Accept(ballot, value) => {
                let vote = self.next_vote(Vote { ballot, value })?;
                Some(Step::Accept(vote.ballot, vote.value))
            }
        }
    }

    fn next_propose(&self) -> Option<Step>
        ensures { result ≡ would self.now Propose }
    {
        let (ballot, value) = self.proposal()?;
        Some(Step::Propose(ballot, value))
    }

    /// The ballot that `start` would start.
    pub fn next_start(&self) -> Option<u16>
        ensures told { result ≡ next_start self.now }
        ensures value { SomeIff result (next_ballot self.now ≤ 65535) (next_ballot self.now) }
    {
        let floor = self.kept.started().max(self.kept.promised());
        next_ballot(self.me, self.quorums.nodes(), floor)
    }

    /// The ballot and the value that `propose` would propose.
    pub fn proposal(&self) -> Option<(u16, u16)>
        ensures { result ≡ next_proposal self.now }
    {
        let ballot = self.ballot?;
        let count = usize::from(self.quorums.nodes());
        let promised = count_promises(&self.promises, count);
        if self.proposed || !is_promise_quorum(self.quorums, promised) {
            return None;
        }
        let value = match highest_report(&self.promises, count) {
            Some(vote) => vote.value,
            None if self.kept.offered() => u16::from(self.me),
            None => return None,
        };
        Some((ballot, value))
    }

    /// The ballot, where the node would promise it if it were prepared.
    pub fn next_promise(&self, ballot: u16) -> Option<u16>
        ensures { result ≡ next_promise self.now ballot }
    {
        if self.kept.promised() < ballot {
            Some(ballot)
        } else {
            None
        }
    }

    /// The vote, where the node would give it if it were proposed.
    pub fn next_vote(&self, vote: Vote) -> Option<Vote>
        ensures { result ≡ next_vote self.now vote }
    {
        if is_vote(self.quorums.nodes(), vote) && self.kept.promised() <= vote.ballot {
            Some(vote)
        } else {
            None
        }
    }

    /// Starts the node's least own ballot above all that it has started or promised: phase 1a.
    pub fn start(&mut self) -> Result<Msg, CoreError>
        ensures ok { IfOk result (λ sent. (sent ≡ Prepare (next_ballot self.old)) × (self.new ≡ started self.old)) }
        ensures least { IsLeastAbove self.old.me self.old.quorums.nodes (floor_of self.old) (next_ballot self.old) }
        ensures spent { IsErr result ↔ (65535 < next_ballot self.old) }
        ensures none_left { OnErr result (IsSpent self.old.me self.old.quorums.nodes (floor_of self.old)) }
        ensures err { OnErr result (self.new ≡ self.old) }
        ensures step { IfOk result (λ sent. TakesSteps self.old self.new (taken_by_start self.old) (Some sent)) }
    {
        let Some(ballot) = self.next_start() else {
            return Err(CoreError::BallotsSpent);
        };
        self.kept = self.kept.with_start(ballot);
        self.ballot = Some(ballot);
        self.proposed = false;
        self.promises = [None; MOST_NODES];
        Ok(Msg::Prepare(ballot))
    }

    /// Proposes under the ballot under way, once, where a promise quorum's promises are noted: phase 2a.
    pub fn propose(&mut self) -> Option<Msg>
        ensures answer { result ≡ proposal self.old }
        ensures state { self.new ≡ after_proposal self.old }
        ensures step { TakesSteps self.old self.new (taken_by_propose self.old) result }
    {
        let (ballot, value) = self.proposal()?;
        self.proposed = true;
        Some(Msg::Propose(ballot, value))
    }

    /// Takes a message, and answers what is to be sent: a promise or a vote. A promise for the ballot under way and a
    /// vote are noted; a message that no node can send, as with a ballot 0 or a number that is no node's, is not.
    pub fn on(&mut self, message: &Msg) -> Option<Msg>
        ensures answer { result ≡ reply self.old message.now }
        ensures state { self.new ≡ after_message self.old message.now }
        ensures step { TakesStepsOn self.old message.now self.new (taken_on self.old message.now) result }
        ensures quiet { IsNone result → LearnsAtMost self.old.me (taken_on self.old message.now) }
    {
        match *message {
            Msg::Prepare(ballot) => self.promise(ballot),
            Msg::Propose(ballot, value) => self.accept(Vote { ballot, value }),
            Msg::Promise(from, ballot, report) => {
                self.note_promise(from, ballot, report);
                None
            }
            Msg::Accepted(from, ballot, value) => {
                self.note_vote(from, Vote { ballot, value });
                None
            }
        }
    }

    fn promise(&mut self, ballot: u16) -> Option<Msg>
        ensures answer { result ≡ promise_to self.old ballot }
        ensures state { self.new ≡ after_prepare self.old ballot }
    {
        let ballot = self.next_promise(ballot)?;
        let report = self.kept.accepted();
        self.kept = self.kept.with_promise(ballot);
        Some(Msg::Promise(self.me, ballot, report))
    }

    fn accept(&mut self, vote: Vote) -> Option<Msg>
        ensures answer { result ≡ vote_for self.old vote }
        ensures state { self.new ≡ after_propose self.old vote }
    {
        let vote = self.next_vote(vote)?;
        self.kept = self.kept.with_vote(vote);
        Some(Msg::Accepted(self.me, vote.ballot, vote.value))
    }

    /// Notes a promise of node `from`, where it is one for the ballot under way: what `on` does with the message.
    pub fn note_promise(&mut self, from: u8, ballot: u16, report: Option<Vote>)
        ensures state { self.new ≡ after_promise self.old from ballot report }
        ensures step { TakesItsSteps self.old (Promise from ballot report) self.new }
    {
        let nodes = self.quorums.nodes();
        let sound = 0 < ballot && from < nodes && is_report(nodes, ballot, report);
        if sound && self.ballot == Some(ballot) {
            self.promises[usize::from(from)] = Some(report);
        }
    }

    /// Whether just this vote of node `from` is noted: then to note it again changes nothing.
    pub fn has_noted(&self, from: u8, vote: Vote) -> bool
        ensures is { IsTrue result ↔ ((from < self.now.quorums.nodes) × (note_of self.now.votes from ≡ Some vote)) }
        ensures same { IsTrue result → after_vote self.now from vote ≡ self.now }
    {
        from < self.quorums.nodes() && self.votes[usize::from(from)] == Some(vote)
    }

    /// Notes a vote of node `from`, and may learn its value: what `on` does with the message.
    pub fn note_vote(&mut self, from: u8, vote: Vote)
        ensures state { self.new ≡ after_vote self.old from vote }
        ensures step { TakesItsSteps self.old (Accepted from vote.ballot vote.value) self.new }
    {
        let sound = from < self.quorums.nodes() && is_vote(self.quorums.nodes(), vote);
        if !sound || !is_at_most(self.votes[usize::from(from)], vote.ballot) {
            return;
        }
        self.votes[usize::from(from)] = Some(vote);
        let count = usize::from(self.quorums.nodes());
        let quorum = is_accept_quorum(self.quorums, count_votes(&self.votes, count, vote.ballot));
        if quorum && self.learned.is_none() {
            self.learned = Some(vote.value as u8);
        }
    }
}

fn is_vote(count: u8, vote: Vote) -> bool
    ensures { result ≡ is_vote count vote }
{
    0 < vote.ballot && vote.value < u16::from(count)
}

fn is_report(count: u8, ballot: u16, report: Option<Vote>) -> bool
    ensures { result ≡ is_report count ballot report }
{
    match report {
        Some(vote) => is_vote(count, vote) && vote.ballot < ballot,
        None => true,
    }
}

fn is_at_most(noted: Option<Vote>, ballot: u16) -> bool
    ensures { result ≡ is_at_most noted ballot }
{
    match noted {
        Some(vote) => vote.ballot <= ballot,
        None => true,
    }
}
