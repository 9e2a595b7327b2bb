ghost use Rattle.std.specs.Prelude.{◌≡◌, ◌≢◌, ◌<◌, ℕ, length, slice_get, IfOk, IfErr, OnOk};
ghost use Rattle.acceptor_log.specs.Acknowledged.{IsSound};
ghost use Rattle.farm_nodes_turn_room.specs.Served.{IsServed};
ghost use Rattle.farm_nodes_turn_passes.specs.Numbers.{function_of, pass_of};
ghost use Rattle.farm_nodes_turn_passes.specs.Pending.{HavePending};
ghost use Rattle.farm_nodes_turn_function.specs.InRoom.{DrawsInRoom, ForRoom, HaltsAmong, LogsTurnAmong, StandsInRoom};
ghost use Rattle.farm_nodes_turn_function.specs.Turned.{LeavesSeats};

use crate::in_pass::play_in;
use acceptor_log::Log;
use durable_model::Disk;
use farm_nodes_turn_passes::{Halt, NumberedSeat, Oracles, Which};
use farm_nodes_turn_room::Progress;
use rand_pcg::Pcg32;
use rooms_hall::Naming;
use rtl_language::Function;
use std::alloc::Global;

/// One turn in a room, which is one of the four rooms of the function.
pub fn turn_in<D: Disk, O: Oracles, H: Naming>(
    alloc: Global,
    log: &mut Log<D>,
    seats: &mut Vec<NumberedSeat<H>>,
    room: u16,
    function: &Function,
    oracles: &mut O,
    draws: &mut Pcg32,
) -> Result<Progress, Halt>
    requires sound { IsSound D.Disk log.old }
    requires room { function_of room < length seats.old.items }
    ensures served { IsServed D.Disk log.old log.new }
    ensures going { IfOk result (λ progress. log.new.going ≡ log.old.going) }

    // The seats of other functions are as they were.
    ensures others { (f : ℕ) → f ≢ function_of room → slice_get seats.new.items f ≡ slice_get seats.old.items f }
    ensures count { length seats.new.items ≡ length seats.old.items }

    ensures leaves { ForRoom room (LeavesSeats function.now (pass_of room)) seats.old.items seats.new.items }
    ensures after { OnOk result (StandsInRoom room draws.old draws.new seats.old.items seats.new.items) }
    ensures draws { DrawsInRoom room draws.old draws.new seats.old.items seats.new.items }
    ensures left { IfErr result (λ halt. HavePending seats.new.items room halt.pending) }
    ensures journal { LogsTurnAmong D.Disk log.old log.new room seats.old.items seats.new.items result }
    ensures cause { HaltsAmong D.Disk function.now log.old log.new room seats.old.items seats.new.items result }
{
    let Some(four) = seats.get_mut(usize::from(room / 4)) else {
        unreachable!();
    };
    play_in(
        alloc,
        log,
        four,
        Which::of_room(room),
        room,
        function,
        oracles,
        draws,
    )
}
