//! Whether a text is that of the offer in a node's own cell.

ghost use Rattle.std.specs.Prelude.{◌≡◌, ◌↔◌, IsTrue};
ghost use Rattle.farm_nodes_turn_offer.specs.Pending.{IsOfferText};
ghost use Rattle.farm_nodes_turn_offer.specs.Told.{IsOwnText};
ghost use Rattle.farm_nodes_restart_seat.specs.Telling.{TellsWhether};

use farm_nodes_turn_offer::Seat;
use lang_base::{NoMemory, Pass};
use offers::Offer;
use std::alloc::Global;

/// Whether these bytes are the text of the offer that stands in the cell of the seat's node, as the seat has seen it.
pub fn is_own_text<P: Pass>(alloc: Global, seat: &Seat<P>, text: &[u8]) -> Result<bool, NoMemory>
    ensures { TellsWhether
        (IsOwnText (IsOfferText P.In.Language P.Out.Language P.Pass) seat.now text.now) result }
{
    let Some(offer) = seat.fetch(seat.me()) else {
        return Ok(false);
    };
    is_text_of(alloc, offer, text)
}

/// Whether these bytes are the text of the offer.
fn is_text_of<P: Pass>(alloc: Global, offer: &Offer<P>, text: &[u8]) -> Result<bool, NoMemory>
    ensures { TellsWhether (IsOfferText P.In.Language P.Out.Language P.Pass text.now offer.now) result }
{
    offer.validated();
    let mut written = Vec::new(alloc);
    match offer.write(&mut written) {
        Ok(()) => Ok(are_same(text, written.as_slice())),
        Err(error) => Err(error),
    }
}

fn are_same(text: &[u8], written: &[u8]) -> bool
    ensures { IsTrue result ↔ (text.now ≡ written.now) }
{
    text == written
}
