//! What a node is about to do in the room of a pass of a function.

ghost use Rattle.std.specs.Prelude.{◌≡◌, ◌&&◌, true, None, IfErr, option_copied};
ghost use Rattle.std.specs.Arc.{arc_value};
ghost use Rattle.farm_nodes_turn_passes.specs.Fours.{four_of};
ghost use Rattle.farm_nodes_turn_offer.specs.SeatValue.{IsOneRoom};
ghost use Rattle.farm_nodes_turn_function.specs.Turned.{HasLearned, IsTooLargeFor, IsTooLargeFrom, OthersStay};
ghost use Rattle.farm_nodes_turn_room.specs.Leading.{may_start};
ghost use Rattle.farm_nodes_turn_room.specs.Played.{IsChoiceFault, IsLearnedOutput, SeesOn};
ghost use Rattle.farm_nodes_sweep_step.specs.Next.{HasNoNext};
ghost use Rattle.farm_nodes_sweep_step.specs.Staged.{HasLooked, IsStaged};
ghost use Rattle.farm_nodes_sweep_room.specs.Chosen.{UnlessOffers, WhereActs, WhereNone, WhereOffers, WhereRests, WhereTold};
ghost use Rattle.farm_nodes_sweep_room.specs.StagedOffer.{IsOfferHeld};
ghost use Rattle.farm_nodes_sweep_function.specs.RoomSeat.{seat_of};
ghost use Rattle.farm_nodes_sweep_function.specs.Staged.{HasInputOf, IsSettled, LooksIn, PlansIn};

use crate::planned::{Planned, first, fourth, second, third};
use farm_nodes_sweep_room::{Choice, stage};
use farm_nodes_turn_passes::{
    AllocationOf, ConstantsOf, ExpressionsOf, NumberedSeat, Oracles, OrderOf, Which,
};
use farm_nodes_turn_room::{Fault, Seat, learned_output};
use lang_base::{Language, Oracle, Pass};
use offers::Offer;
use rand_pcg::Pcg32;
use rooms_hall::Naming;
use rtl_language::Function;
use std::alloc::Global;
use std::sync::Arc;

/// Looks at the room of one pass of the function, and tells what the node is about to do there. The input of the first pass is the
/// function, that of each other one the output that the node has learned in the pass before it, in this sweep too. The optimiser is asked with the
/// function's number.
pub fn stage_in<O: Oracles, H: Naming>(
    alloc: Global,
    seats: &mut NumberedSeat<H>,
    pass: Which,
    room: u16,
    function: &Function,
    is_its_turn: bool,
    oracles: &mut O,
    draws: &mut Pcg32,
) -> Result<Option<Planned>, Fault>
    // It takes no step: the seats of the other passes are as they were, and the node keeps what it kept.
    ensures others { OthersStay pass (four_of seats.old) (four_of seats.new) }
    ensures looks { LooksIn (seat_of (four_of seats.old) pass) (seat_of (four_of seats.new) pass) }

    ensures planned { WhereTold result
        (λ m. PlansIn room is_its_turn (seat_of (four_of seats.new) pass) m.entry m.step) }
    ensures input { WhereTold result (λ m. HasInputOf function.now (four_of seats.new) m.step) }
    ensures settled { WhereNone result (IsSettled is_its_turn pass (four_of seats.new)) }
    ensures refused { IfErr result (IsChoiceFault (IsTooLargeFor function.now pass (four_of seats.new))) }
{
    let number = room / 4;
    match pass {
        Which::Constants => first(stage_first(
            alloc,
            &mut seats.seat.first,
            room,
            function,
            is_its_turn,
            &mut ConstantsOf { oracles, number },
            draws,
        )),
        Which::Expressions => second(stage_behind(
            alloc,
            &seats.seat.first,
            &mut seats.seat.second,
            room,
            is_its_turn,
            &mut ExpressionsOf { oracles, number },
            draws,
        )),
        Which::Allocation => third(stage_behind(
            alloc,
            &seats.seat.second,
            &mut seats.seat.third,
            room,
            is_its_turn,
            &mut AllocationOf { oracles, number },
            draws,
        )),
        Which::Order => fourth(stage_behind(
            alloc,
            &seats.seat.third,
            &mut seats.seat.fourth,
            room,
            is_its_turn,
            &mut OrderOf { oracles, number },
            draws,
        )),
    }
}

/// The same in the room of the first pass.
fn stage_first<P: Pass, O: Oracle<P = P>>(
    alloc: Global,
    seat: &mut Seat<P>,
    room: u16,
    function: &<P::In as Language>::Fun,
    is_its_turn: bool,
    oracle: &mut O,
    draws: &mut Pcg32,
) -> Result<Choice<Arc<Offer<P>>>, Fault>
    ensures words { HasLooked seat.old.words seat.new.words }
    ensures room { IsOneRoom seat.old seat.new }
    ensures seen { SeesOn seat.old seat.new }
    ensures offer { WhereOffers result
        (IsOfferHeld P.In.Language P.Out.Language P.Pass (λ b. arc_value b) room seat.new) }
    ensures input { WhereOffers result (λ entry offer. (arc_value offer).input ≡ function.now) }
    ensures act { WhereActs result
        (IsStaged room (is_its_turn && may_start seat.new.words.node) seat.new.words) }
    ensures offered { UnlessOffers result (seat.new.words.node.kept.offered ≡ true) }
    ensures nothing { WhereRests result
        (HasNoNext (is_its_turn && may_start seat.new.words.node) seat.new.words) }
    ensures refused { IfErr result (IsChoiceFault (P.too_large function.now)) }
{
    stage(
        alloc,
        seat,
        room,
        Some(function),
        is_its_turn,
        oracle,
        draws,
    )
}

/// The same in the room of a pass whose input is learned in the room before.
fn stage_behind<B: Pass, P: Pass<In = B::Out>, O: Oracle<P = P>>(
    alloc: Global,
    before: &Seat<B>,
    seat: &mut Seat<P>,
    room: u16,
    is_its_turn: bool,
    oracle: &mut O,
    draws: &mut Pcg32,
) -> Result<Choice<Arc<Offer<P>>>, Fault>
    ensures words { HasLooked seat.old.words seat.new.words }
    ensures room { IsOneRoom seat.old seat.new }
    ensures seen { SeesOn seat.old seat.new }
    ensures offer { WhereOffers result
        (IsOfferHeld B.Out.Language P.Out.Language P.Pass (λ b. arc_value b) room seat.new) }
    ensures input { WhereOffers result (λ entry offer. IsLearnedOutput before.now (arc_value offer).input) }
    ensures act { WhereActs result
        (IsStaged room (is_its_turn && may_start seat.new.words.node) seat.new.words) }
    ensures offered { UnlessOffers result (HasLearned before.now → seat.new.words.node.kept.offered ≡ true) }
    ensures nothing { WhereRests result
        (HasNoNext (is_its_turn && may_start seat.new.words.node) seat.new.words) }
    ensures refused { IfErr result (IsChoiceFault (IsTooLargeFrom P.too_large before.now)) }
{
    let input = learned_output(before);
    stage(alloc, seat, room, input, is_its_turn, oracle, draws)
}
