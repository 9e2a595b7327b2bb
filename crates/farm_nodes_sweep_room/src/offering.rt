//! The offer that a node is about to make.

ghost use Rattle.std.specs.Prelude.{◌≡◌, true, Some, IfOk, IfErr, IsSome, option_copied};
ghost use Rattle.std.specs.Arc.{arc_value};
ghost use Rattle.offers.specs.Text.{text_of};
ghost use Rattle.acceptor_log_form.specs.declared.record.Record.TheVariants as entry;
ghost use Rattle.farm_nodes_turn_room.specs.Played.{IsChoiceFault, IsTooLarge};
ghost use Rattle.farm_nodes_sweep_room.specs.Chosen.{WhereNone, WhereTold};
ghost use Rattle.farm_nodes_sweep_room.specs.StagedOffer.{IsOfferOf};

use acceptor_log_form::Record;
use farm_nodes_turn_room::{Fault, Seat, choose};
use lang_base::{Language, NoMemory, Oracle, Pass, Row};
use offers::Offer;
use rand_pcg::Pcg32;
use std::alloc::Global;
use std::sync::Arc;

/// The offer that the node is about to make in the room, and its record, where it has made none and knows the input.
pub fn stage_offer<P: Pass, O: Oracle<P = P>>(
    alloc: Global,
    seat: &Seat<P>,
    room: u16,
    input: Option<&<P::In as Language>::Fun>,
    oracle: &mut O,
    draws: &mut Pcg32,
) -> Result<Option<(Record, Arc<Offer<P>>)>, Fault>
    // The offer has the input, and the record its text.
    ensures told { WhereTold result (λ m. IsOfferOf P.In.Language P.Out.Language P.Pass
        room seat.now m.0 (arc_value m.1)) }
    ensures input { WhereTold result (λ m. option_copied input.entry ≡ Some (arc_value m.1).input) }
    ensures none { WhereNone result (IsSome input.entry → seat.now.words.node.kept.offered ≡ true) }

    // No proposal is a fault: only wanting memory is, or an input without a baseline.
    ensures refused { IfErr result (IsChoiceFault (IsTooLarge P.too_large (option_copied input.entry))) }
    ensures idle { seat.now.words.node.kept.offered ≡ true → draws.new ≡ draws.old }
{
    if seat.kept().offered() {
        return Ok(None);
    }
    let Some(input) = input else {
        return Ok(None);
    };
    match choose(alloc, oracle, input, draws) {
        Ok(offer) => {
            offer.validated();
            match prepared(alloc, room, offer) {
                Ok(made) => Ok(Some(made)),
                Err(_) => Err(Fault::NoMemory),
            }
        }
        Err(fault) => Err(fault),
    }
}

/// The record of an offer, and the offer where all seats of the room can read it.
fn prepared<P: Pass>(
    alloc: Global,
    room: u16,
    offer: Offer<P>,
) -> Result<(Record, Arc<Offer<P>>), NoMemory>
    ensures entry { IfOk result (λ made.
        made.0 ≡ entry.Offered room (text_of P.In.Language P.Out.Language P.Pass offer)) }
    ensures shared { IfOk result (λ made. arc_value made.1 ≡ offer) }
{
    let mut text = Vec::new(alloc);
    offer.write(&mut text)?;
    let Ok(shared) = Arc::new(alloc, offer) else {
        return Err(NoMemory);
    };
    Ok((Record::Offered(room, Row::from_vec(text)), shared))
}
