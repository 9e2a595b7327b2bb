ghost use Rattle.std.specs.Prelude.{◌≡◌, All, None, length, slice_set, IfOk, OnOk, IfErr};
ghost use Rattle.parallel_validate.specs.Verdicts.{AreAnswers};
ghost use Rattle.farm_nodes_open_offers.specs.Faults.{IsRefusal};
ghost use Rattle.farm_nodes_open_offers.specs.Known.{AreKnown, IsAccepted, HasUnaccepted, placed};

use crate::fault::RecordFault;
use crate::storing::Stored;
use lang_base::Pass;
use offers::{Offer, PartsOf};
use std::alloc::Global;

/// The offer of each of so many functions, if it has one among these, to each of which the check of the pass has answered. Where it
/// has said no to any, all are refused.
pub fn known_offers<P: Pass>(
    alloc: Global,
    functions: u16,
    stored: Stored<PartsOf<P>>,
    answers: &[bool],
) -> Result<Vec<Option<Offer<P>>>, RecordFault>
    requires rooms { length stored.rooms.items ≡ length stored.parts.items }
    requires answers { AreAnswers P.accepts stored.parts.items answers.now }
    ensures known { IfOk result (λ offers. AreKnown functions stored offers.items) }
    ensures accepted { OnOk result (All (IsAccepted P.accepts) stored.parts.items) }
    ensures refused { IfErr result (IsRefusal (HasUnaccepted P.accepts stored.parts.items)) }
{
    let mut offers = none_yet::<P>(alloc, functions)?;
    let Stored { rooms, parts } = stored;
    let mut at = 0;
    for found in parts {
        if !answers[at] {
            return Err(RecordFault::Refused);
        }
        let offer = Offer::<P>::known(found.input, found.output, found.certificate);
        place(&mut offers, rooms[at], offer);
        at += 1;
    }
    Ok(offers)
}

/// No offer of any of so many functions.
fn none_yet<P: Pass>(alloc: Global, functions: u16) -> Result<Vec<Option<Offer<P>>>, RecordFault>
    ensures count { IfOk result (λ offers. length offers.items ≡ functions) }
    ensures none { IfOk result (λ offers. All (λ offer. offer ≡ None) offers.items) }
    ensures refused { IfErr result (λ e. e ≡ RecordFault.NoMemory) }
{
    let mut offers = Vec::new(alloc);
    for _function in 0..functions {
        match offers.push(None) {
            Ok(()) => {}
            Err(_) => return Err(RecordFault::NoMemory),
        }
    }
    Ok(offers)
}

/// Puts an offer of this room down as that of the room's function.
fn place<P: Pass>(offers: &mut Vec<Option<Offer<P>>>, room: u16, offer: Offer<P>)
    ensures { offers.new.items ≡ placed offers.old.items room offer }
{
    if let Some(slot) = offers.get_mut(usize::from(room / 4)) {
        *slot = Some(offer);
    }
}
