//! A node's seats in the four rooms of a function, over records and kept parts.

ghost use Rattle.std.specs.Prelude.{◌≡◌, ◌<◌, ◌+◌, ◌↔◌, [], ◌∷◌, length, IsTrue, IfOk};
ghost use Rattle.farm_nodes_turn_step.specs.Noted.{pending_of};
ghost use Rattle.farm_nodes_turn_passes.specs.FarmNodesTurnOfferPending.{IsAsked};
ghost use Rattle.farm_nodes_turn_passes.specs.Fours.{four_of, words_of};
ghost use Rattle.farm_nodes_turn_passes.specs.Texts.{pass_texts, IsOwnTextIn};
ghost use Rattle.farm_nodes_restart_records.specs.Found.{AreKeptAt};

use crate::seat::is_kept_in;
use acceptor_log_form::Record;
use farm_nodes_restart_seat::{is_own_text, is_pending};
use farm_nodes_turn_passes::{NumberedSeat, Which};
use farm_nodes_turn_step::Pending;
use lang_base::NoMemory;
use paxos_core_world::kept::Kept;
use rooms_hall::Naming;
use std::alloc::Global;

/// Whether the record is that of what is pending in the room, which is the one of this pass.
pub(crate) fn is_pending_in<H: Naming>(
    numbered: &NumberedSeat<H>,
    pass: Which,
    room: u16,
    pending: &Pending,
    entry: &Record,
) -> bool
    requires { IsAsked (words_of (four_of numbered.now) pass) pending.now }
    ensures { IsTrue result
        ↔ (pending_of room (words_of (four_of numbered.now) pass) pending.now ≡ entry.now ∷ []) }
{
    match pass {
        Which::Constants => is_pending(&numbered.seat.first, room, pending, entry),
        Which::Expressions => is_pending(&numbered.seat.second, room, pending, entry),
        Which::Allocation => is_pending(&numbered.seat.third, room, pending, entry),
        Which::Order => is_pending(&numbered.seat.fourth, room, pending, entry),
    }
}

/// Whether these bytes are the text of the offer that stands in the node's cell in the room of this pass.
pub(crate) fn is_text_in<H: Naming>(
    alloc: Global,
    numbered: &NumberedSeat<H>,
    pass: Which,
    text: &[u8],
) -> Result<bool, NoMemory>
    ensures { IfOk result (λ told. IsTrue told ↔ IsOwnTextIn pass_texts pass (four_of numbered.now) text.now) }
{
    match pass {
        Which::Constants => is_own_text(alloc, &numbered.seat.first, text),
        Which::Expressions => is_own_text(alloc, &numbered.seat.second, text),
        Which::Allocation => is_own_text(alloc, &numbered.seat.third, text),
        Which::Order => is_own_text(alloc, &numbered.seat.fourth, text),
    }
}

/// Whether the four parts from this place on are what the seats keep.
pub(crate) fn are_kept_at<H: Naming>(
    numbered: &NumberedSeat<H>,
    parts: &[Kept],
    place: usize,
) -> bool
    requires { place + 3 < length parts.now }
    ensures { IsTrue result ↔ AreKeptAt parts.now place (four_of numbered.now) }
{
    let first = is_kept_in(parts, place, &numbered.seat.first);
    let second = is_kept_in(parts, place + 1, &numbered.seat.second);
    let third = is_kept_in(parts, place + 2, &numbered.seat.third);
    let fourth = is_kept_in(parts, place + 3, &numbered.seat.fourth);
    let front = both(first, second);
    let back = both(third, fourth);
    both(front, back)
}

pub(crate) fn both(first: bool, second: bool) -> bool
    ensures { IsTrue result ↔ (IsTrue first × IsTrue second) }
{
    first && second
}
