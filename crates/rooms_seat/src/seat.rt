ghost use Rattle.std.specs.Prelude.{◌≡◌, ◌<◌, ◌↔◌, Some, None, IsErr, IsNone, OnErr, IfOk, IfSome};
ghost use Rattle.rooms_words.specs.Proposer.{next_ballot, next_proposal};
ghost use Rattle.rooms_words.specs.Act.TheVariants as act;
ghost use Rattle.rooms_meeting.specs.Did.{Did, Forgotten, LookedAtAcceptor, LookedAtProposer};
ghost use Rattle.rooms_meeting.specs.Would.{would, IsAmong};
ghost use Rattle.rooms_meeting.specs.SeatAct.TheVariants as asked;
ghost use Rattle.rooms_words.specs.NodeState.{offered};
ghost use Rattle.rooms_seat.specs.Meeting.{IsBounded, IsKnown};
ghost use Rattle.rooms_meeting.specs.SeatState.{opened_seat, own_words, CanOpen, promise_of, proposer_of, seen_world, vote_by, vote_of};
ghost use Rattle.rooms_meeting.specs.RoomAt.{HasWords};
ghost use Rattle.paxos_core_world.specs.Quorum.{AreQuorums};
ghost use Rattle.rooms_meeting.specs.Seen.{heard_with};
ghost use Rattle.rooms_words.specs.Deal.{dealt, informed};
ghost use Rattle.rooms_words.specs.Heard.{after_hearing};
ghost use Rattle.rooms_meeting.specs.Sound.{IsSound};
ghost use Rattle.rooms_words.specs.Words.{accepted_in, promised_in};
ghost use Rattle.paxos_core_world.specs.World.{Has};

use crate::opening::opened_words;
use paxos_core_world::kept::Kept;
use paxos_core_world::msg::Msg;
use paxos_core_world::vote::Vote;
use rooms_meeting::act::SeatAct;
use rooms_meeting::{Rights, SeenWords};
use rooms_words::acceptor::AcceptorWord;
use rooms_words::proposer::ProposerWord;
use rooms_words::rule::{
    Accepts, Forgets, LooksAtAcceptor, LooksAtProposer, Promises, Proposes, Starts,
};
use rooms_words::step::Step;
use rooms_words::view::Opening;
use rooms_words::{CoreError, Node};
use std::marker::Model;

/// One node's right to store its two words of a room and to load all. Its calls take no lock, wait for nobody and return.
#[derive(Drop)]
pub struct WordSeat {
    pub(crate) rights: Rights,
    /// How many nodes' words are heard, the first of all: to hear again an acceptor's word that was seen last would leave the node as
    /// it is.
    pub(crate) heard: u8,
    pub(crate) node: Node,
    pub(crate) seen: [SeenWords; 7],
    /// The value that the node has proposed in this run under the ballot that it started last.
    proposed: Option<u8>,
}

impl Model for WordSeat {
    ghost use Rattle.rooms_meeting.specs.SeatState.{SeatState};
    ghost use Rattle.rooms_meeting.specs.Seen.{acceptors_shown, proposers_shown, IsKept};

    ghost Value = { SeatState };

    ghost view = { λ s. record {
      table = s.rights.at;
      view = s.rights.me.0;
      node = s.node;
      proposed = s.proposed;
      proposers = proposers_shown s.seen;
      acceptors = acceptors_shown s.seen;
    } };

    ghost invariant = { λ s. IsKept s.heard record {
      table = s.rights.at;
      view = s.rights.me.0;
      node = s.node;
      proposed = s.proposed;
      proposers = proposers_shown s.seen;
      acceptors = acceptors_shown s.seen;
    } };
}

impl WordSeat {
    /// Node `me`'s seat of a room that opens so, from its rights there.
    pub(crate) fn new(rights: Rights, opening: &Opening, me: u8) -> Self
        requires opening { CanOpen opening.now }
        requires number { me < opening.now.quorums.nodes }
        requires words { HasWords rights.at opening.now.quorums.nodes }
        requires view { rights.me.0 ≡ dealt opening.now me }
        ensures { result ≡ opened_seat rights.at opening.now me }
    {
        let kept = opening.kept;
        let node = Node::new(me, opening.quorums).restart(kept[usize::from(me)]);
        WordSeat {
            rights,
            heard: 0,
            node,
            seen: [
                opened_words(kept[0]),
                opened_words(kept[1]),
                opened_words(kept[2]),
                opened_words(kept[3]),
                opened_words(kept[4]),
                opened_words(kept[5]),
                opened_words(kept[6]),
            ],
            proposed: None,
        }
    }

    /// Loads the word of node `j`'s proposer.
    pub fn look_proposer(&mut self, j: u8) -> ProposerWord
        requires { j < self.old.node.quorums.nodes }
        ensures { LookedAtProposer j result self.old self.new }
    {
        let place = usize::from(j);
        let found = self.rights.load::<LooksAtProposer>(2 * place);
        self.seen[place].proposer = found;
        ProposerWord::unpack(found)
    }

    /// Loads the word of node `j`'s acceptor: notes the promise that it shows for the ballot under way, and its vote, and
    /// may learn.
    pub fn look_acceptor(&mut self, j: u8) -> AcceptorWord
        requires { j < self.old.node.quorums.nodes }
        ensures { LookedAtAcceptor j result self.old self.new }
    {
        let place = usize::from(j);
        let found = self.rights.load::<LooksAtAcceptor>(2 * place + 1);
        let word = AcceptorWord::unpack(found);
        if j < self.heard && found == self.seen[place].acceptor {
            return word;
        }
        note(&mut self.node, &mut self.seen[place], j, found);
        self.heard = heard_with(self.heard, j);
        word
    }

    /// Starts the node's least own ballot above all that it has started or promised: stores its proposer's word.
    pub fn start(&mut self) -> Result<u16, CoreError>
        ensures ok { IfOk result (λ b. (b ≡ next_ballot self.old.node) × Did act.Start None self.old self.new) }
        ensures spent { IsErr result ↔ (65535 < next_ballot self.old.node) }
        ensures err { OnErr result (self.new ≡ self.old) }
    {
        let mut next = self.node;
        let Ok(_prepare) = next.start() else {
            return Err(CoreError::BallotsSpent);
        };
        let started = next.kept().started();
        let word = ProposerWord {
            started,
            proposed: None,
        };
        let place = usize::from(self.node.me());
        self.rights.store::<Starts>(2 * place, word.pack());
        self.heard = 0;
        self.node = next;
        self.proposed = None;
        Ok(started)
    }

    /// Promises the ballot last seen of node `j`, where it is above all that was promised: stores its acceptor's word.
    pub fn promise(&mut self, j: u8) -> Option<u16>
        requires { j < self.old.node.quorums.nodes }
        ensures answer { result ≡ promise_of self.old j }
        ensures some { IfSome result (λ b. Did (act.Promise b) self.old.proposed self.old self.new) }
        ensures none { IsNone result → self.new ≡ self.old }
    {
        let ballot = self.node.next_promise(self.last_seen(j).started)?;
        let mut next = self.node;
        let _promise = next.on(&Msg::Prepare(ballot));
        let word = AcceptorWord {
            promised: ballot,
            accepted: self.node.kept().accepted(),
        };
        let place = usize::from(self.node.me());
        self.rights.store::<Promises>(2 * place + 1, word.pack());
        self.node = next;
        Some(ballot)
    }

    /// Proposes under the ballot under way, once, where a promise quorum's promises are noted: stores its proposer's
    /// word. Answers ballot and value.
    pub fn propose(&mut self) -> Option<(u16, u16)>
        ensures answer { result ≡ next_proposal self.old.node }
        ensures some { IfSome result (λ p. Did act.Propose (Some p.1) self.old self.new) }
        ensures none { IsNone result → self.new ≡ self.old }
    {
        let (ballot, value) = self.node.proposal()?;
        let mut next = self.node;
        let _propose = next.propose();
        let proposed = Some(value as u8);
        let word = ProposerWord {
            started: self.node.kept().started(),
            proposed,
        };
        let place = usize::from(self.node.me());
        self.rights.store::<Proposes>(2 * place, word.pack());
        self.node = next;
        self.proposed = proposed;
        Some((ballot, value))
    }

    /// Votes for what node `j` was last seen to have proposed, where its ballot is not below all that was promised and
    /// the vote was not given yet: stores its acceptor's word.
    pub fn accept(&mut self, j: u8) -> Option<Vote>
        requires { j < self.old.node.quorums.nodes }
        ensures answer { result ≡ vote_of self.old j }
        ensures some { IfSome result (λ x. Did (act.Accept x.ballot x.value) self.old.proposed self.old self.new) }
        ensures none { IsNone result → self.new ≡ self.old }
    {
        let vote = next_vote(&self.node, self.last_seen(j))?;
        let mut next = self.node;
        let _accepted = next.on(&Msg::Propose(vote.ballot, vote.value));
        let word = AcceptorWord {
            promised: vote.ballot,
            accepted: Some(vote),
        };
        let place = usize::from(self.node.me());
        self.rights.store::<Accepts>(2 * place + 1, word.pack());
        self.node = next;
        Some(vote)
    }

    /// The step that `start`, `promise(j)`, `propose` or `accept(j)` would take now: none where it would take none.
    pub fn intent(&self, act: SeatAct) -> Option<Step>
        requires { IsAmong self.now.node.quorums.nodes act }
        ensures { result ≡ would self.now act }
    {
        match act {
            SeatAct::Start => Some(Step::Start(self.node.next_start()?)),
            SeatAct::Promise(j) => self.intent_to_promise(j),
            SeatAct::Propose => {
                let (ballot, value) = self.node.proposal()?;
                Some(Step::Propose(ballot, value))
            }
            SeatAct::Accept(j) => self.intent_to_accept(j),
        }
    }

    /// The step that `promise(j)` would take now.
    fn intent_to_promise(&self, j: u8) -> Option<Step>
        requires { j < self.now.node.quorums.nodes }
        ensures { result ≡ would self.now (asked.Promise j) }
    {
        let seen = self.last_seen(j);
        Some(Step::Promise(self.node.next_promise(seen.started)?))
    }

    /// The step that `accept(j)` would take now.
    fn intent_to_accept(&self, j: u8) -> Option<Step>
        requires { j < self.now.node.quorums.nodes }
        ensures { result ≡ would self.now (asked.Accept j) }
    {
        let vote = next_vote(&self.node, self.last_seen(j))?;
        Some(Step::Accept(vote.ballot, vote.value))
    }

    /// Forgets all but what its node keeps and what was last seen of the words, as at a restart: loads its two own words,
    /// and answers what it found there.
    pub fn forget(&mut self) -> (ProposerWord, AcceptorWord)
        ensures forgotten { Forgotten self.old self.new }
        ensures found { result ≡ own_words self.old }
    {
        let place = usize::from(self.node.me());
        let proposer = self.rights.load::<Forgets>(2 * place);
        let acceptor = self.rights.load::<Forgets>(2 * place + 1);
        self.heard = 0;
        self.node.forget();
        (
            ProposerWord::unpack(proposer),
            AcceptorWord::unpack(acceptor),
        )
    }

    /// Notes that the node has offered: its offer stands in a cell, and no word shows it.
    pub fn offer(&mut self)
        ensures { self.new ≡ record self.old { node = offered self.old.node } }
    {
        let _first = self.node.offer();
    }

    /// The word of node `j`'s proposer as it was seen last.
    fn last_seen(&self, j: u8) -> ProposerWord
        requires { j < self.now.node.quorums.nodes }
        ensures { result ≡ proposer_of self.now j }
    {
        ProposerWord::unpack(self.seen[usize::from(j)].proposer)
    }

    /// What has to outlive a restart.
    pub fn kept(&self) -> Kept
        ensures { result ≡ self.now.node.kept }
    {
        self.node.kept()
    }

    /// The ballot under way, that the node started last since it forgot last.
    pub fn ballot(&self) -> Option<u16>
        ensures { result ≡ self.now.node.ballot }
    {
        self.node.ballot()
    }

    /// The number of its node.
    pub fn me(&self) -> u8
        ensures value { result ≡ self.now.node.me }
        ensures below { result < self.now.node.quorums.nodes }
    {
        self.node.me()
    }

    /// How many nodes the room has.
    pub fn count(&self) -> u8
        ensures value { result ≡ self.now.node.quorums.nodes }
        ensures sizes { AreQuorums self.now.node.quorums }
    {
        self.node.count()
    }

    /// What the type keeps, for a caller's proof.
    pub fn known(&self)
        ensures { IsKnown self.now }
    {
        let _node = self.node.me();
    }

    /// What the type keeps of its numbers, for a caller's proof.
    pub fn bounds(&self)
        ensures { IsBounded self.now }
    {
        let _node = self.node.me();
        let _vote = self.node.kept().accepted();
    }

    /// All that the type keeps, for the proof of a meeting.
    #[inline(always)]
    pub(crate) fn sound(&self)
        ensures { IsSound self.now }
    {
        let _node = self.node.me();
    }

    /// Takes in what another seat of the room has seen: the next look shows no less.
    pub(crate) fn hear(&mut self, other: &mut WordSeat)
        requires { self.old.table ≡ other.old.table }
        ensures heard { self.new ≡ record self.old { view = informed self.old.view other.old.view } }
        ensures other { other.new ≡ other.old }
    {
        self.rights.hear(&mut other.rights);
    }

    /// The value that the node has learned, the number of the node whose offer it is.
    pub fn learned(&self) -> Option<u8>
        ensures value { result ≡ self.now.node.learned }
        ensures there { IfSome result (λ v. Has (self.now.node.me, v) (seen_world self.now).learned) }
    {
        self.node.learned()
    }
}

/// Puts the number down that was found of node `j`'s acceptor, and the node notes what it shows.
#[inline(always)]
pub(crate) fn note(node: &mut Node, seen: &mut SeenWords, j: u8, found: u64)
    ensures node { node.new ≡ after_hearing node.old j (promised_in found) (accepted_in found) }
    ensures seen { seen.new ≡ record seen.old { acceptor = found } }
{
    seen.acceptor = found;
    hear_word(node, j, AcceptorWord::unpack(found));
}

/// How many nodes' words are heard, the first of all, once node `j`'s is.
fn heard_with(heard: u8, j: u8) -> u8
    requires { j < 255 }
    ensures { result ≡ heard_with heard j }
{
    if heard == j { j + 1 } else { heard }
}

/// The node notes what the word of node `j`'s acceptor shows: nothing of a vote that it has noted already.
fn hear_word(node: &mut Node, j: u8, word: AcceptorWord)
    ensures { node.new ≡ after_hearing node.old j word.promised word.accepted }
{
    node.note_promise(j, word.promised, word.accepted);
    let Some(vote) = word.accepted else {
        return;
    };
    if !node.has_noted(j, vote) {
        node.note_vote(j, vote);
    }
}

/// The vote for what a proposer's word shows, where the node would give it and has not given it yet.
fn next_vote(node: &Node, seen: ProposerWord) -> Option<Vote>
    ensures { result ≡ vote_by node.now seen.started seen.proposed }
{
    let value = seen.proposed?;
    let vote = Vote {
        ballot: seen.started,
        value: u16::from(value),
    };
    if node.kept().accepted() == Some(vote) {
        return None;
    }
    node.next_vote(vote)
}
