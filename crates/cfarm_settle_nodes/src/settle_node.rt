//! A node of a room of three.

ghost use Rattle.std.specs.Prelude.{◌≡◌, ◌≢◌, ◌↔◌, IfErr, IsSome, IsTrue};
ghost use Rattle.cfarm_settle_nodes.specs.Leads.{leads};
ghost use Rattle.cfarm_settle_nodes.specs.Nodes.{HasTurned};

use crate::node::turn;
use crate::player::Player;
use lang_base::{Language, Oracle, Pass, PassError};
use rooms::Seat;
use std::alloc::Global;

/// A node of one room. In its first turn it offers what its optimiser draws for its input, which is lent: all nodes have one.
#[derive(Drop)]
pub struct SettleNode<'a, O: Oracle + Drop> {
    alloc: Global,
    pub seat: Seat<O::P>,
    player: Player<O>,
    pub input: &'a <<O::P as Pass>::In as Language>::Fun,
}

impl<'a, O: Oracle + Drop> SettleNode<'a, O> {
    /// The seat's node, which has taken no turn.
    pub(crate) fn new(
        alloc: Global,
        seat: Seat<O::P>,
        oracle: O,
        input: &'a <<O::P as Pass>::In as Language>::Fun,
    ) -> Self
        ensures seat { result.seat ≡ seat }
        ensures input { result.input.now ≡ input.now }
    {
        let player = Player::new(oracle, seat.me());
        SettleNode {
            alloc,
            seat,
            player,
            input,
        }
    }

    /// One turn. Answers whether the node saw anything new. The refusal is the pass's of its baseline, or that there is no memory.
    pub fn turn(&mut self) -> Result<bool, PassError>
        ensures turned { HasTurned self.old.input.now self.new.input.now self.old.seat self.new.seat }
        ensures refused { IfErr result (λ e. e ≢ PassError.NoMemory → O.P.too_large self.old.input.now) }
    {
        turn(self.alloc, &mut self.seat, &mut self.player, self.input)
    }

    /// Whether it has made its offer.
    pub fn has_offered(&self) -> bool
        ensures { result ≡ self.now.seat.words.node.kept.offered }
    {
        self.seat.kept().offered()
    }

    /// Whether it has learned.
    pub fn has_learned(&self) -> bool
        ensures { IsTrue result ↔ IsSome self.now.seat.words.node.learned }
    {
        self.seat.learned().is_some()
    }

    /// Whether its own ballot is under way, and it has promised no higher one.
    pub fn leads(&self) -> bool
        ensures { result ≡ leads self.now.seat.words.node }
    {
        match self.seat.ballot() {
            Some(ballot) => ballot >= self.seat.kept().promised(),
            None => false,
        }
    }

    /// Its seat alone.
    pub fn into_seat(self) -> Seat<O::P>
        ensures { result ≡ self.entry.seat }
    {
        let SettleNode {
            alloc: _,
            seat,
            player: _player,
            input: _,
        } = self;
        seat
    }
}
