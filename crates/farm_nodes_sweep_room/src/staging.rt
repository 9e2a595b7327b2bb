//! What a node does next in the room of a pass.

ghost use Rattle.std.specs.Prelude.{◌≡◌, ◌&&◌, true, Some, IfErr, IsSome, option_copied};
ghost use Rattle.std.specs.Arc.{arc_value};
ghost use Rattle.farm_nodes_turn_offer.specs.SeatValue.{IsOneRoom};
ghost use Rattle.farm_nodes_turn_room.specs.Leading.{may_start};
ghost use Rattle.farm_nodes_turn_room.specs.Played.{IsChoiceFault, IsTooLarge, SeesOn};
ghost use Rattle.farm_nodes_sweep_step.specs.Next.{HasNoNext};
ghost use Rattle.farm_nodes_sweep_step.specs.Staged.{HasLooked, IsStaged};
ghost use Rattle.farm_nodes_sweep_room.specs.Chosen.{chosen_by, UnlessOffers, WhereActs, WhereOffers, WhereRests};
ghost use Rattle.farm_nodes_sweep_room.specs.StagedOffer.{IsOfferHeld};

use crate::acting::stage_act;
use crate::choice::Choice;
use crate::looking::look;
use crate::offering::stage_offer;
use farm_nodes_sweep_step::Staged;
use farm_nodes_turn_room::{Fault, Seat};
use lang_base::{Language, Oracle, Pass};
use offers::Offer;
use rand_pcg::Pcg32;
use std::alloc::Global;
use std::sync::Arc;

/// Looks at all words of the room and at the offer that was learned there, and tells what the node does next: it makes its offer, where
/// it has made none and knows the input, or else takes a step. It does nothing of that yet.
pub fn stage<P: Pass, O: Oracle<P = P>>(
    alloc: Global,
    seat: &mut Seat<P>,
    room: u16,
    input: Option<&<P::In as Language>::Fun>,
    is_its_turn: bool,
    oracle: &mut O,
    draws: &mut Pcg32,
) -> Result<Choice<Arc<Offer<P>>>, Fault>
    ensures words { HasLooked seat.old.words seat.new.words }
    ensures room { IsOneRoom seat.old seat.new }
    ensures seen { SeesOn seat.old seat.new }

    // The offer has the input, and its record its text; a step is the next, and its record is of that.
    ensures offer { WhereOffers result
        (IsOfferHeld P.In.Language P.Out.Language P.Pass (λ b. arc_value b) room seat.new) }
    ensures input { WhereOffers result (λ entry offer. option_copied input.entry ≡ Some (arc_value offer).input) }
    ensures act { WhereActs result
        (IsStaged room (is_its_turn && may_start seat.new.words.node) seat.new.words) }

    // Where it tells none, there is none.
    ensures offered { UnlessOffers result (IsSome input.entry → seat.new.words.node.kept.offered ≡ true) }
    ensures nothing { WhereRests result
        (HasNoNext (is_its_turn && may_start seat.new.words.node) seat.new.words) }

    ensures refused { IfErr result (IsChoiceFault (IsTooLarge P.too_large (option_copied input.entry))) }
{
    look(seat);
    match stage_offer(alloc, seat, room, input, oracle, draws) {
        Ok(Some((entry, offer))) => Ok(Choice::Offer(entry, offer)),
        Ok(None) => Ok(chosen(stage_act(&seat.words, room, is_its_turn))),
        Err(fault) => Err(fault),
    }
}

/// The step, where there is one.
fn chosen<B: Drop>(staged: Option<Staged>) -> Choice<B>
    ensures { result ≡ chosen_by staged }
{
    match staged {
        Some(staged) => Choice::Act(staged),
        None => Choice::Nothing,
    }
}
