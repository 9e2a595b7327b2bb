//! A turn of a node, and what it tells of itself.

use crate::farm_node::FarmNode;
use crate::halted::Halted;
use crate::learning::learned_in;
use crate::turn::Turn;
use acceptor_log_form::LogError;
use durable_model::Disk;
use farm_nodes_turn_function::{Fault, Oracles, Which, function_in, turn_in};
use rooms_hall::Naming;

impl<D: Disk, O: Oracles, H: Naming> FarmNode<D, O, H> {
    ghost use Rattle.std.specs.Prelude.{◌≡◌, ◌≢◌, ◌<◌, None, length};
    ghost use Rattle.farm_nodes_turn_function.specs.Served.{IsServed};
    ghost use Rattle.farm_nodes_turn_function.specs.Numbers.{function_of};
    ghost use Rattle.farm_nodes_turn_node.specs.Asked.{MayBeAsked};
    ghost use Rattle.farm_nodes_turn_node.specs.Turning.{DoesNothing, JournalTurns, LeavesRoom, StaysElsewhere, TellsTurn};

    /// One turn in a room of the program. Once it has failed the node is stopped: until it is restarted it answers 405, and takes
    /// no step and stores nothing.
    pub fn turn(&mut self, room: u16) -> Turn
        requires asked { MayBeAsked D.Disk self.old }
        requires room { function_of room < length self.old.seats.items }
        ensures asked { MayBeAsked D.Disk self.new }
        ensures served { IsServed D.Disk self.old.log self.new.log }

        // A stopped node does nothing, and answers 405.
        ensures stopped { self.old.halted ≢ None → DoesNothing self.old self.new result }

        // The program and other functions' seats are as they were; of the room's function a turn changes one seat.
        ensures others { StaysElsewhere room self.old self.new }
        ensures leaves { LeavesRoom room self.old self.new }

        // What it tells, and what it leaves of the journal.
        ensures tells { TellsTurn D.Disk room self.old self.new result }
        ensures into { D.is_honest self.old.log.disk → self.old.halted ≡ None → JournalTurns D.Disk self.old self.new }
    {
        if self.halted.is_some() {
            return Turn::Failed(Fault::Journal(LogError::Stopped));
        }
        match turn_in(
            self.alloc,
            &mut self.log,
            &mut self.seats,
            room,
            function_in(&self.program.functions, room),
            &mut self.oracles,
            &mut self.draws,
        ) {
            Ok(progress) => Turn::of(progress),
            Err(halt) => {
                let fault = halt.fault;
                self.halted = Some(Halted { room, halt });
                Turn::Failed(fault)
            }
        }
    }
}

impl<D: Disk, O, H: Naming> FarmNode<D, O, H> {
    ghost use Rattle.std.specs.Prelude.{◌≡◌, ◌<◌, length, option_copied};
    ghost use Rattle.farm_nodes_turn_function.specs.Numbers.{function_of, pass_of};
    ghost use Rattle.farm_nodes_turn_function.specs.Fours.{four_of, words_of};
    ghost use Rattle.farm_nodes_turn_node.specs.Held.{fault_in};
    ghost use Rattle.farm_nodes_turn_node.specs.Stood.{At};

    /// The value that the node has learned in a room of the program since its last restart.
    pub fn learned(&self, room: u16) -> Option<u8>
        requires { function_of room < length self.now.seats.items }
        ensures { At four_of (λ s. result ≡ (words_of s (pass_of room)).node.learned) (function_of room)
            self.now.seats.items }
    {
        let Some(four) = self.seats.get(usize::from(room / 4)) else {
            return None;
        };
        learned_in(four, Which::of_room(room))
    }

    /// The disk that its journal is on.
    pub fn disk(&self) -> &D
        ensures { result.now ≡ self.now.log.disk }
    {
        self.log.disk()
    }

    /// The fault that stopped it, none where it is not stopped.
    pub fn fault(&self) -> Option<&Fault>
        ensures { option_copied result ≡ fault_in self.now.halted }
    {
        match &self.halted {
            Some(halted) => Some(&halted.halt.fault),
            None => None,
        }
    }
}
