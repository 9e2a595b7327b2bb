ghost use Rattle.std.specs.Prelude.{◌≡◌, ◌<◌, length, map, IfOk, IfErr};
ghost use Rattle.farm_nodes_open_numbers.specs.Numbered.{AreOfOneFunction, HaveOneClaim};

use crate::fault::RoomFault;
use farm_nodes_turn_passes::{FunctionSeat, NumberedSeat};
use rooms_hall::{Drawn, Naming};
use std::alloc::Global;

/// The seats of one function, each with the claim of its rooms, whose table was opened with the number that was drawn.
pub fn numbered<H: Naming>(
    alloc: Global,
    drawn: Drawn<H>,
    seats: Vec<FunctionSeat>,
) -> Result<Vec<NumberedSeat<H>>, RoomFault>
    requires some { 0 < length seats.items }
    requires rooms { AreOfOneFunction drawn seats.items }
    ensures seats { IfOk result (λ found. map (λ n. n.seat) found.items ≡ seats.items) }
    ensures one { IfOk result (λ found. HaveOneClaim (map (λ n. n.claim) found.items)) }
    ensures refused { IfErr result (λ e. e ≡ RoomFault.NoMemory) }
{
    let mut claim = NumberedSeat::<H>::claim_of(drawn, &seats[0]);
    let mut found = Vec::new(alloc);
    for seat in seats {
        let Ok(one) = NumberedSeat::of(seat, &mut claim) else {
            return Err(RoomFault::NoMemory);
        };
        match found.push(one) {
            Ok(()) => {}
            Err(_) => return Err(RoomFault::NoMemory),
        }
    }
    Ok(found)
}
