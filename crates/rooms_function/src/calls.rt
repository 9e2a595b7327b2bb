//! The calls of a seat, each in the room of the pass that it names. Each is the call of that room's seat: it loads or stores words
//! of that room alone.

ghost use Rattle.std.specs.Prelude.{◌≡◌, ℕ, ◌<◌, ◌≤◌, ◌↔◌, Some, None, IsErr, IfOk, IfSome};
ghost use Rattle.std.specs.Option.{option_map};
ghost use Rattle.paxos_core_node_steps.specs.declared.step.Step.TheVariants as step;
ghost use Rattle.paxos_core_world.specs.declared.vote.Vote.{Vote};
ghost use Rattle.rooms.specs.Did.{Forgotten, LookedAtAcceptor, LookedAtProposer};
ghost use Rattle.rooms.specs.Would.{would, Acted, IsAmong};
ghost use Rattle.rooms.specs.SeatAct.TheVariants as act;
ghost use Rattle.rooms_function.specs.Pass.{words_in, HasLearned, IsOnlyIn};

use crate::seat::FunctionSeat;
use crate::words::{accept, forget, promise, propose, start};
use paxos_core_node_steps::step::Step;
use paxos_core_world::kept::Kept;
use paxos_core_world::vote::Vote;
use rooms::CoreError;
use rooms::acceptor::AcceptorWord;
use rooms::act::SeatAct;
use rooms::proposer::ProposerWord;

impl FunctionSeat {
    /// The step that `start`, `promise(j)`, `propose` or `accept(j)` would take now: none where it would take none.
    pub fn intent(&self, pass: u8, act: SeatAct) -> Option<Step>
        requires some { 0 < pass }
        requires most { pass ≤ 4 }
        requires among { IsAmong (words_in pass self.now).node.quorums.nodes act }
        ensures { result ≡ would (words_in pass self.now) act }
    {
        match pass {
            1 => self.first.words.intent(act),
            2 => self.second.words.intent(act),
            3 => self.third.words.intent(act),
            _ => self.fourth.words.intent(act),
        }
    }

    /// Starts the node's least own ballot above all that it has started or promised: stores its proposer's word.
    pub fn start(&mut self, pass: u8) -> Result<u16, CoreError>
        requires some { 0 < pass }
        requires most { pass ≤ 4 }
        ensures answer { IfOk result (λ b. would (words_in pass self.old) act.Start ≡ Some (step.Start b)) }
        ensures spent { IsErr result ↔ (would (words_in pass self.old) act.Start ≡ None) }
        ensures acted { Acted act.Start (words_in pass self.old) (words_in pass self.new) }
        ensures only { IsOnlyIn pass self.old self.new }
    {
        match pass {
            1 => start(&mut self.first.words),
            2 => start(&mut self.second.words),
            3 => start(&mut self.third.words),
            _ => start(&mut self.fourth.words),
        }
    }

    /// Loads the word of node `j`'s proposer.
    pub fn look_proposer(&mut self, pass: u8, j: u8) -> ProposerWord
        requires some { 0 < pass }
        requires most { pass ≤ 4 }
        requires number { j < (words_in pass self.old).node.quorums.nodes }
        ensures looked { LookedAtProposer j result (words_in pass self.old) (words_in pass self.new) }
        ensures only { IsOnlyIn pass self.old self.new }
    {
        match pass {
            1 => self.first.words.look_proposer(j),
            2 => self.second.words.look_proposer(j),
            3 => self.third.words.look_proposer(j),
            _ => self.fourth.words.look_proposer(j),
        }
    }

    /// Loads the word of node `j`'s acceptor: notes the promise that it shows for the ballot under way, and its vote, and
    /// may learn.
    pub fn look_acceptor(&mut self, pass: u8, j: u8) -> AcceptorWord
        requires some { 0 < pass }
        requires most { pass ≤ 4 }
        requires number { j < (words_in pass self.old).node.quorums.nodes }
        ensures looked { LookedAtAcceptor j result (words_in pass self.old) (words_in pass self.new) }
        ensures only { IsOnlyIn pass self.old self.new }
    {
        match pass {
            1 => self.first.words.look_acceptor(j),
            2 => self.second.words.look_acceptor(j),
            3 => self.third.words.look_acceptor(j),
            _ => self.fourth.words.look_acceptor(j),
        }
    }

    /// Promises the ballot last seen of node `j`, where it is above all that was promised: stores its acceptor's word.
    pub fn promise(&mut self, pass: u8, j: u8) -> Option<u16>
        requires some { 0 < pass }
        requires most { pass ≤ 4 }
        requires number { j < (words_in pass self.old).node.quorums.nodes }
        ensures answer { option_map step.Promise result ≡ would (words_in pass self.old) (act.Promise j) }
        ensures acted { Acted (act.Promise j) (words_in pass self.old) (words_in pass self.new) }
        ensures only { IsOnlyIn pass self.old self.new }
    {
        match pass {
            1 => promise(&mut self.first.words, j),
            2 => promise(&mut self.second.words, j),
            3 => promise(&mut self.third.words, j),
            _ => promise(&mut self.fourth.words, j),
        }
    }

    /// Proposes under the ballot under way, once, where a promise quorum's promises are noted: stores its proposer's
    /// word. Answers ballot and value.
    pub fn propose(&mut self, pass: u8) -> Option<(u16, u16)>
        requires some { 0 < pass }
        requires most { pass ≤ 4 }
        ensures answer { option_map (λ (p : ℕ × ℕ). step.Propose p.0 p.1) result
            ≡ would (words_in pass self.old) act.Propose }
        ensures acted { Acted act.Propose (words_in pass self.old) (words_in pass self.new) }
        ensures only { IsOnlyIn pass self.old self.new }
    {
        match pass {
            1 => propose(&mut self.first.words),
            2 => propose(&mut self.second.words),
            3 => propose(&mut self.third.words),
            _ => propose(&mut self.fourth.words),
        }
    }

    /// Votes for what node `j` was last seen to have proposed, where its ballot is not below all that was promised and
    /// the vote was not given yet: stores its acceptor's word.
    pub fn accept(&mut self, pass: u8, j: u8) -> Option<Vote>
        requires some { 0 < pass }
        requires most { pass ≤ 4 }
        requires number { j < (words_in pass self.old).node.quorums.nodes }
        ensures answer { option_map (λ (x : Vote). step.Accept x.ballot x.value) result
            ≡ would (words_in pass self.old) (act.Accept j) }
        ensures acted { Acted (act.Accept j) (words_in pass self.old) (words_in pass self.new) }
        ensures only { IsOnlyIn pass self.old self.new }
    {
        match pass {
            1 => accept(&mut self.first.words, j),
            2 => accept(&mut self.second.words, j),
            3 => accept(&mut self.third.words, j),
            _ => accept(&mut self.fourth.words, j),
        }
    }

    /// Forgets all but what the node keeps in the room, and what was seen of its words and cells, as at a restart: loads the node's
    /// two words there.
    pub fn forget(&mut self, pass: u8)
        requires some { 0 < pass }
        requires most { pass ≤ 4 }
        ensures forgotten { Forgotten (words_in pass self.old) (words_in pass self.new) }
        ensures only { IsOnlyIn pass self.old self.new }
    {
        match pass {
            1 => forget(&mut self.first.words),
            2 => forget(&mut self.second.words),
            3 => forget(&mut self.third.words),
            _ => forget(&mut self.fourth.words),
        }
    }

    /// The value that the node has learned, the number of the node whose offer it is.
    pub fn learned(&self, pass: u8) -> Option<u8>
        requires some { 0 < pass }
        requires most { pass ≤ 4 }
        ensures value { result ≡ (words_in pass self.now).node.learned }
        ensures there { IfSome result (λ v. HasLearned pass v self.now) }
    {
        match pass {
            1 => self.first.words.learned(),
            2 => self.second.words.learned(),
            3 => self.third.words.learned(),
            _ => self.fourth.words.learned(),
        }
    }

    /// What has to outlive a restart.
    pub fn kept(&self, pass: u8) -> Kept
        requires some { 0 < pass }
        requires most { pass ≤ 4 }
        ensures { result ≡ (words_in pass self.now).node.kept }
    {
        match pass {
            1 => self.first.words.kept(),
            2 => self.second.words.kept(),
            3 => self.third.words.kept(),
            _ => self.fourth.words.kept(),
        }
    }

    /// The ballot under way, that the node started last since it forgot last.
    pub fn ballot(&self, pass: u8) -> Option<u16>
        requires some { 0 < pass }
        requires most { pass ≤ 4 }
        ensures { result ≡ (words_in pass self.now).node.ballot }
    {
        match pass {
            1 => self.first.words.ballot(),
            2 => self.second.words.ballot(),
            3 => self.third.words.ballot(),
            _ => self.fourth.words.ballot(),
        }
    }
}
