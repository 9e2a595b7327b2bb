ghost use Rattle.std.specs.Prelude.{◌≡◌, ℕ, ◌<◌, ◌↔◌, true, Some, None, IsErr, IfOk, IfSome, MatchOption};
ghost use Rattle.std.specs.Option.{option_map};
ghost use Rattle.std.specs.Arc.{arc_value};
ghost use Rattle.paxos_core_node_steps.specs.declared.step.Step.TheVariants as step;
ghost use Rattle.paxos_core_world.specs.Quorum.{AreQuorums};
ghost use Rattle.paxos_core_world.specs.World.{Has};
ghost use Rattle.paxos_core_world.specs.declared.vote.Vote.{Vote};
ghost use Rattle.rooms_cells.specs.Seen.{Read};
ghost use Rattle.rooms_cells.specs.declared.sight.Put.TheVariants as put;
ghost use Rattle.rooms_seat.specs.Meeting.{IsBounded, IsKnown};
ghost use Rattle.rooms_seat.specs.Did.{Forgotten, LookedAtAcceptor, LookedAtProposer, NotesOf};
ghost use Rattle.rooms_seat.specs.SeatState.{seen_world};
ghost use Rattle.rooms_seat.specs.Would.{would, Acted, IsAmong};
ghost use Rattle.rooms_seat.specs.SeatAct.TheVariants as act;
ghost use Rattle.rooms.specs.SeatValue.{IsFilled, IsOffered, IsOneRoom, offer_of};

use lang_base::Pass;
use offers::Offer;
use paxos_core_node_steps::step::Step;
use paxos_core_world::kept::Kept;
use paxos_core_world::vote::Vote;
use rooms_cells::{Put, Sights};
use rooms_seat::acceptor::AcceptorWord;
use rooms_seat::act::SeatAct;
use rooms_seat::proposer::ProposerWord;
use rooms_seat::{CoreError, WordSeat};
use std::alloc::Global;
use std::marker::Model;
use std::sync::Arc;

/// One node's seat of a room: its right to store its two words, to load all, and to fill its cell. Whoever holds an offer
/// holds a proof that the pass's rules hold of it. If the node has offered, its offer stands in its cell: a caller that steps
/// by the words themselves has to leave that so.
#[derive(Drop)]
pub struct Seat<P: Pass> {
    pub words: WordSeat,
    pub(crate) sights: Sights<Offer<P>>,
}

impl<P: Pass> Model for Seat<P> {
    ghost use Rattle.offers.specs.declared.parts.Parts.{Parts};
    ghost use Rattle.rooms.specs.SeatValue.{IsFilled, SeatValue};

    ghost Value = { SeatValue (Parts P.In.Fun P.Out.Fun P.Cert) };

    ghost view = { λ s. record { words = s.words; sights = s.sights } };

    ghost invariant = { λ s. IsFilled record { words = s.words; sights = s.sights } };
}

impl<P: Pass> Seat<P> {
    /// Makes the node's offer, in a cell that all seats of the room can read. No word is loaded or stored.
    pub fn offer(&mut self, alloc: Global, offer: Arc<Offer<P>>) -> Put<Arc<Offer<P>>>
        ensures offered { IsOffered result offer (arc_value offer) self.old self.new }
        ensures stands { self.old.words.node.kept.offered ≡ true → result ≡ put.No offer }
        ensures room { IsOneRoom self.old self.new }
    {
        self.words.bounds();
        if self.words.kept().offered() {
            return Put::No(offer);
        }
        let me = usize::from(self.words.me());
        let told = self.sights.put(alloc, me, offer);
        if let Put::Yes = &told {
            self.words.offer();
        }
        told
    }

    /// The step that `start`, `promise(j)`, `propose` or `accept(j)` would take now: none where it would take none.
    pub fn intent(&self, act: SeatAct) -> Option<Step>
        requires { IsAmong self.now.words.node.quorums.nodes act }
        ensures { result ≡ would self.now.words act }
    {
        self.words.intent(act)
    }

    /// Starts the node's least own ballot above all that it has started or promised: stores its proposer's word.
    pub fn start(&mut self) -> Result<u16, CoreError>
        ensures answer { IfOk result (λ b. would self.old.words act.Start ≡ Some (step.Start b)) }
        ensures spent { IsErr result ↔ (would self.old.words act.Start ≡ None) }
        ensures acted { Acted act.Start self.old.words self.new.words }
        ensures sights { self.new.sights ≡ self.old.sights }
        ensures room { IsOneRoom self.old self.new }
    {
        self.words.bounds();
        self.words.start()
    }

    /// Loads the word of node `j`'s proposer.
    pub fn look_proposer(&mut self, j: u8) -> ProposerWord
        requires { j < self.old.words.node.quorums.nodes }
        ensures looked { LookedAtProposer j result self.old.words self.new.words }
        ensures sights { self.new.sights ≡ self.old.sights }
        ensures room { IsOneRoom self.old self.new }
    {
        self.words.look_proposer(j)
    }

    /// Loads the word of node `j`'s acceptor: notes the promise that it shows for the ballot under way, and its vote, and
    /// may learn.
    pub fn look_acceptor(&mut self, j: u8) -> AcceptorWord
        requires { j < self.old.words.node.quorums.nodes }
        ensures looked { LookedAtAcceptor j result self.old.words self.new.words }
        ensures notes { NotesOf j self.old.words self.new.words }
        ensures sights { self.new.sights ≡ self.old.sights }
        ensures room { IsOneRoom self.old self.new }
    {
        self.words.look_acceptor(j)
    }

    /// Promises the ballot last seen of node `j`, where it is above all that was promised: stores its acceptor's word.
    pub fn promise(&mut self, j: u8) -> Option<u16>
        requires { j < self.old.words.node.quorums.nodes }
        ensures answer { option_map step.Promise result ≡ would self.old.words (act.Promise j) }
        ensures acted { Acted (act.Promise j) self.old.words self.new.words }
        ensures sights { self.new.sights ≡ self.old.sights }
        ensures room { IsOneRoom self.old self.new }
    {
        self.words.promise(j)
    }

    /// Proposes under the ballot under way, once, where a promise quorum's promises are noted: stores its proposer's
    /// word. Answers ballot and value.
    pub fn propose(&mut self) -> Option<(u16, u16)>
        ensures answer { option_map (λ (p : ℕ × ℕ). step.Propose p.0 p.1) result ≡ would self.old.words act.Propose }
        ensures acted { Acted act.Propose self.old.words self.new.words }
        ensures sights { self.new.sights ≡ self.old.sights }
        ensures room { IsOneRoom self.old self.new }
    {
        self.words.propose()
    }

    /// Votes for what node `j` was last seen to have proposed, where its ballot is not below all that was promised and
    /// the vote was not given yet: stores its acceptor's word.
    pub fn accept(&mut self, j: u8) -> Option<Vote>
        requires { j < self.old.words.node.quorums.nodes }
        ensures answer { option_map (λ (x : Vote). step.Accept x.ballot x.value) result ≡ would self.old.words (act.Accept j) }
        ensures acted { Acted (act.Accept j) self.old.words self.new.words }
        ensures sights { self.new.sights ≡ self.old.sights }
        ensures room { IsOneRoom self.old self.new }
    {
        self.words.accept(j)
    }

    /// Forgets all but what the node keeps, and what was seen of words and cells, as at a restart: loads its two own words.
    pub fn forget(&mut self)
        ensures forgotten { Forgotten self.old.words self.new.words }
        ensures sights { self.new.sights ≡ self.old.sights }
        ensures room { IsOneRoom self.old self.new }
    {
        let _found = self.words.forget();
    }

    /// The value that the node has learned, the number of the node whose offer it is.
    pub fn learned(&self) -> Option<u8>
        ensures value { result ≡ self.now.words.node.learned }
        ensures there { IfSome result (λ v. Has (self.now.words.node.me, v) (seen_world self.now.words).learned) }
    {
        self.words.learned()
    }

    /// How many nodes the room has.
    pub fn count(&self) -> u8
        ensures value { result ≡ self.now.words.node.quorums.nodes }
        ensures sizes { AreQuorums self.now.words.node.quorums }
    {
        self.words.count()
    }

    /// What has to outlive a restart.
    pub fn kept(&self) -> Kept
        ensures { result ≡ self.now.words.node.kept }
    {
        self.words.kept()
    }

    /// The ballot under way, that the node started last since it forgot last.
    pub fn ballot(&self) -> Option<u16>
        ensures { result ≡ self.now.words.node.ballot }
    {
        self.words.ballot()
    }

    /// The number of its node.
    pub fn me(&self) -> u8
        ensures value { result ≡ self.now.words.node.me }
        ensures below { result < self.now.words.node.quorums.nodes }
    {
        self.words.me()
    }

    /// Reads node `j`'s cell, which is no word. What was seen stays.
    pub fn see(&mut self, j: u8)
        requires { j < self.old.words.node.quorums.nodes }
        ensures read { Read j self.old.sights self.new.sights }
        ensures words { self.new.words ≡ self.old.words }
        ensures room { IsOneRoom self.old self.new }
    {
        self.words.bounds();
        self.sights.look(usize::from(j));
    }

    /// Node `j`'s offer, as the seat has seen it.
    pub fn fetch(&self, j: u8) -> Option<&Offer<P>>
        requires { j < self.now.words.node.quorums.nodes }
        ensures { MatchOption result (offer_of self.now j ≡ None) (λ r. offer_of self.now j ≡ Some r.now) }
    {
        self.words.bounds();
        self.sights.get(usize::from(j))
    }

    /// What the type keeps, for a caller's proof.
    pub fn known(&self)
        ensures run { IsKnown self.now.words }
        ensures numbers { IsBounded self.now.words }
        ensures filled { IsFilled self.now }
    {
        self.words.known();
        self.words.bounds();
    }
}
