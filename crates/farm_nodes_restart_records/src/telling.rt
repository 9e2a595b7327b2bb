//! Whether the records of offers have the texts of those in the node's own cells.

ghost use Rattle.std.specs.Prelude.{◌≡◌, ◌↔◌, IsTrue, IfOk};
ghost use Rattle.farm_nodes_turn_passes.specs.Fours.{fours_of};
ghost use Rattle.farm_nodes_turn_passes.specs.Texts.{pass_texts};
ghost use Rattle.farm_nodes_restart_records.specs.Told.{AreTold, IsTextAt, TellsItsOffer};

use crate::fours::{both, is_text_in};
use acceptor_log_form::Record;
use farm_nodes_turn_passes::{NumberedSeat, Which};
use lang_base::NoMemory;
use rooms_hall::Naming;
use std::alloc::Global;

/// Whether the text of each record of an offer is that of the offer that stands in the node's cell of its room.
pub(crate) fn are_told<H: Naming>(
    alloc: Global,
    seats: &Vec<NumberedSeat<H>>,
    records: &[Record],
) -> Result<bool, NoMemory>
    ensures { IfOk result (λ told. IsTrue told ↔ AreTold pass_texts (fours_of seats.now.items) records.now) }
{
    let mut all = true;
    for place in 0..records.len() {
        let here = match is_told(alloc, seats, &records[place]) {
            Ok(here) => here,
            Err(error) => return Err(error),
        };
        all = both(all, here);
    }
    Ok(all)
}

/// Whether it is of no offer, or its text is that of the offer that stands in the node's cell of its room.
fn is_told<H: Naming>(
    alloc: Global,
    seats: &Vec<NumberedSeat<H>>,
    entry: &Record,
) -> Result<bool, NoMemory>
    ensures { IfOk result (λ told. IsTrue told ↔ TellsItsOffer pass_texts (fours_of seats.now.items) entry.now) }
{
    match entry {
        Record::Offered(room, text) => is_text_at(alloc, seats, *room, text.as_slice()),
        _ => Ok(true),
    }
}

/// Whether the room is one of the seats', and these bytes are the text of the offer that stands in the node's cell there.
fn is_text_at<H: Naming>(
    alloc: Global,
    seats: &Vec<NumberedSeat<H>>,
    room: u16,
    text: &[u8],
) -> Result<bool, NoMemory>
    ensures { IfOk result (λ told. IsTrue told
        ↔ IsTextAt pass_texts (fours_of seats.now.items) room text.now) }
{
    let Some(four) = seats.get(usize::from(room / 4)) else {
        return Ok(false);
    };
    is_text_in(alloc, four, Which::of_room(room), text)
}
