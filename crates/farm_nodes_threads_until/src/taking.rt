//! How a node of a farm takes the turns that it is asked for, in the rooms of the passes up to one.

use crate::leading::leads_in;
use crate::places::{places_of, room_at};
use crate::wrapping::Taking;
use durable_model::Disk;
use farm_nodes_threads_pace::{Outcome, TakesTurns};
use farm_nodes_turn_node::{FarmNode, Oracles, Turn, Which};
use rooms_hall::Naming;

/// What a turn brought, for the order of turns.
fn outcome_of(turn: Turn) -> Outcome {
    match turn {
        Turn::Learned(_) | Turn::Moved => Outcome::Moved,
        Turn::Idle => Outcome::Idle,
        Turn::Failed(_) => Outcome::Failed,
    }
}

/// The rooms that it is asked for are those of its passes, function by function: a number tells the place in that order.
impl<D: Disk + Drop, O: Oracles + Drop, H: Naming> TakesTurns for Taking<FarmNode<D, O, H>> {
    ghost use Rattle.std.specs.Prelude.{◌≡◌, length};
    ghost use Rattle.farm_nodes_turn_node.specs.Asked.{MayBeAsked};
    ghost use Rattle.farm_nodes_threads_until.specs.Places.{IsRoomOf, room_until};
    ghost use Rattle.farm_nodes_threads_until.specs.Early.{TakesEarlyTurn};

    ghost is_fit = { λ t. MayBeAsked D.Disk t.node };

    ghost has_room = { λ t place. IsRoomOf (length t.node.seats.items) (room_until t.until place) };

    ghost turned = { λ t u. (u.until ≡ t.until) × TakesEarlyTurn D.Disk t.until t.node u.node };

    fn rooms(&self) -> u32 {
        places_of(self.node.seats.len(), self.until)
    }

    fn has_learned(&self, room: u16) -> bool {
        self.node.learned(room_at(room, self.until)).is_some()
    }

    fn leads(&self, room: u16) -> bool {
        let room = room_at(room, self.until);
        match self.node.seats.get(usize::from(room / 4)) {
            Some(seats) => leads_in(seats, Which::of_room(room)),
            None => false,
        }
    }

    fn take_turn(&mut self, room: u16) -> Outcome {
        let room = room_at(room, self.until);
        outcome_of(self.node.turn(room))
    }
}
