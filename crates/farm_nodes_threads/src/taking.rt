//! How a node of a farm takes the turns that it is asked for.

ghost use Rattle.std.specs.Prelude.{◌<◌, ℕ};
ghost use Rattle.farm_nodes_turn_node.specs.Numbers.{function_of};

use crate::leading::leads_in;
use crate::wrapping::Taking;
use durable_model::Disk;
use farm_nodes_threads_pace::{Outcome, TakesTurns};
use farm_nodes_turn_node::{FarmNode, Oracles, Turn, Which};
use rooms_hall::Naming;

/// How many functions have rooms with numbers.
const MOST_FUNCTIONS: usize = 16_384;

/// How many rooms so many functions have that have numbers.
fn rooms_of(functions: usize) -> u32
    ensures { (room : ℕ) → room < result → function_of room < functions }
{
    match u32::try_from(functions.min(MOST_FUNCTIONS)) {
        Ok(functions) => functions.saturating_mul(4),
        Err(_) => 0,
    }
}

/// What a turn brought, for the order of turns.
fn outcome_of(turn: Turn) -> Outcome {
    match turn {
        Turn::Learned(_) | Turn::Moved => Outcome::Moved,
        Turn::Idle => Outcome::Idle,
        Turn::Failed(_) => Outcome::Failed,
    }
}

impl<D: Disk + Drop, O: Oracles + Drop, H: Naming> TakesTurns for Taking<FarmNode<D, O, H>> {
    ghost use Rattle.std.specs.Prelude.{◌<◌, length};
    ghost use Rattle.farm_nodes_turn_node.specs.Asked.{MayBeAsked};
    ghost use Rattle.farm_nodes_turn_node.specs.Numbers.{function_of};
    ghost use Rattle.farm_nodes_threads.specs.OneTurn.{TakesTurn};

    ghost is_fit = { λ t. MayBeAsked D.Disk t.node };

    ghost has_room = { λ t room. function_of room < length t.node.seats.items };

    ghost turned = { λ t u. TakesTurn D.Disk t.node u.node };

    fn rooms(&self) -> u32 {
        rooms_of(self.node.seats.len())
    }

    fn has_learned(&self, room: u16) -> bool {
        self.node.learned(room).is_some()
    }

    fn leads(&self, room: u16) -> bool {
        match self.node.seats.get(usize::from(room / 4)) {
            Some(seats) => leads_in(seats, Which::of_room(room)),
            None => false,
        }
    }

    fn take_turn(&mut self, room: u16) -> Outcome {
        outcome_of(self.node.turn(room))
    }
}
