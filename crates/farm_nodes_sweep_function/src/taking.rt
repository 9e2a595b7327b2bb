//! Doing what was staged in the room of a pass of a function, once its record stands.

ghost use Rattle.std.specs.Prelude.{◌≡◌, ◌⊎◌, IfErr, OnErr, OnOk};
ghost use Rattle.std.specs.Arc.{arc_value};
ghost use Rattle.rooms_crash.specs.Would.{IsAmong};
ghost use Rattle.farm_nodes_turn_offer.specs.Offered.{PutsOffer};
ghost use Rattle.farm_nodes_turn_offer.specs.SeatValue.{IsOneRoom};
ghost use Rattle.farm_nodes_turn_passes.specs.Fours.{four_of, words_of};
ghost use Rattle.farm_nodes_turn_function.specs.Turned.{OthersStay};
ghost use Rattle.farm_nodes_sweep_function.specs.Due.{DoesAct, DoesIn, IsRefused, MayDoIn};
ghost use Rattle.farm_nodes_sweep_function.specs.RoomSeat.{seat_of};

use crate::planned::Step;
use farm_nodes_sweep_step::take;
use farm_nodes_turn_passes::{NumberedSeat, Seat, Which};
use farm_nodes_turn_room::Fault;
use lang_base::Pass;
use offers::Offer;
use rooms_cells::Put;
use rooms_crash::act::SeatAct;
use rooms_hall::Naming;
use std::alloc::Global;
use std::sync::Arc;

/// Takes the step in the room of the pass. Where a cell refuses an offer, or memory does, nothing has changed.
pub fn take_in<H: Naming>(
    alloc: Global,
    seats: &mut NumberedSeat<H>,
    pass: Which,
    step: &Step,
) -> Result<(), Fault>
    requires { MayDoIn (seat_of (four_of seats.old) pass) step.now }
    ensures others { OthersStay pass (four_of seats.old) (four_of seats.new) }
    ensures does { OnOk result
        (DoesIn step.now (seat_of (four_of seats.old) pass) (seat_of (four_of seats.new) pass)) }
    ensures err { OnErr result (four_of seats.new ≡ four_of seats.old) }
    ensures refused { IfErr result (IsRefused step.now) }
{
    match step {
        Step::Act(act) => {
            take_act(seats, pass, *act);
            Ok(())
        }
        Step::First(offer) => lay(alloc, &mut seats.seat.first, offer),
        Step::Second(offer) => lay(alloc, &mut seats.seat.second, offer),
        Step::Third(offer) => lay(alloc, &mut seats.seat.third, offer),
        Step::Fourth(offer) => lay(alloc, &mut seats.seat.fourth, offer),
    }
}

/// Does what it is asked in the room of the pass.
fn take_act<H: Naming>(seats: &mut NumberedSeat<H>, pass: Which, act: SeatAct)
    requires { IsAmong (words_of (four_of seats.old) pass).node.quorums.nodes act }
    ensures others { OthersStay pass (four_of seats.old) (four_of seats.new) }
    ensures does { DoesIn (Step.Act act) (seat_of (four_of seats.old) pass) (seat_of (four_of seats.new) pass) }
{
    match pass {
        Which::Constants => take_on(&mut seats.seat.first, act),
        Which::Expressions => take_on(&mut seats.seat.second, act),
        Which::Allocation => take_on(&mut seats.seat.third, act),
        Which::Order => take_on(&mut seats.seat.fourth, act),
    }
}

/// Does what it is asked in the seat's room. No cell is read or filled.
fn take_on<P: Pass>(seat: &mut Seat<P>, act: SeatAct)
    requires { IsAmong seat.old.words.node.quorums.nodes act }
    ensures { DoesAct seat.old seat.new act }
{
    take(&mut seat.words, act);
}

/// Lays an offer into the node's cell.
fn lay<P: Pass>(alloc: Global, seat: &mut Seat<P>, offer: &Arc<Offer<P>>) -> Result<(), Fault>
    ensures ok { OnOk result (PutsOffer (arc_value offer.now) seat.old seat.new) }
    ensures err { OnErr result (seat.new ≡ seat.old) }
    ensures faults { IfErr result (λ fault. (fault ≡ Fault.CellRefused) ⊎ (fault ≡ Fault.NoMemory)) }
    ensures room { IsOneRoom seat.old seat.new }
{
    let Ok(share) = offer.clone() else {
        return Err(Fault::NoMemory);
    };
    match seat.offer(alloc, share) {
        Put::Yes => Ok(()),
        Put::No(_back) => Err(Fault::CellRefused),
        Put::NoMemory(_back) => Err(Fault::NoMemory),
    }
}
