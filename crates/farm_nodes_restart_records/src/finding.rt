//! What a journal's records leave of a node's seats.

ghost use Rattle.std.specs.Prelude.{◌≡◌, ◌<◌, ◌≤◌, ◌*◌, ◌/◌, ◌↔◌, [], ◌∷◌, length, IsTrue, IfOk, IfErr, OnOk};
ghost use Rattle.std.specs.Prelude.{Some, true, false};
ghost use Rattle.acceptor_log_form.specs.Order.{AreInOrder};
ghost use Rattle.farm_nodes_turn_passes.specs.Fours.{fours_of};
ghost use Rattle.farm_nodes_turn_passes.specs.Leaves.{pending_at, MayAsk};
ghost use Rattle.farm_nodes_turn_passes.specs.Texts.{pass_texts};
ghost use Rattle.farm_nodes_restart_records.specs.Found.{AreKept, EndsSo, IsFound, IsJudged, IsOrderFault};
ghost use Rattle.farm_nodes_restart_records.specs.Told.{settled_by, IsConfirmed};

use crate::fours::{are_kept_at, both, is_pending_in};
use crate::parts::{both_parts, but_last};
use crate::telling::are_told;
use acceptor_log_form::{Header, LogError, Record};
use farm_nodes_turn_passes::{NumberedSeat, Which};
use farm_nodes_turn_step::Pending;
use lang_base::NoMemory;
use paxos_core_world::kept::Kept;
use rooms_hall::Naming;
use std::alloc::Global;

/// What records are to a node's seats.
#[derive(Clone, Copy, Debug, PartialEq, Eq)]
pub enum Found {
    /// The last is that of what is pending, and the others leave what the seats keep, and tell their offers.
    Pending,
    /// All of them leave what the seats keep, and tell their offers.
    Whole,
    /// They are others.
    Neither,
}

/// What the records are to the seats. Records out of order are refused.
pub fn find<H: Naming>(
    alloc: Global,
    header: &Header,
    seats: &Vec<NumberedSeat<H>>,
    room: u16,
    pending: &Option<Pending>,
    records: &[Record],
) -> Result<Found, LogError>
    requires nodes { 0 < header.now.nodes }
    requires rooms { 4 * length seats.now.items ≤ 65535 }
    requires asked { MayAsk (fours_of seats.now.items) room pending.now }
    ensures found { IfOk result (IsFound pass_texts (fours_of seats.now.items) room pending.now records.now) }
    ensures in_order { OnOk result
        (AreInOrder header.now.nodes header.now.node (4 * length seats.now.items) records.now) }
    ensures refused { IfErr result (IsOrderFault header.now (4 * length seats.now.items) records.now) }
{
    let rooms = 4 * seats.len() as u16;
    match both_parts(alloc, header, rooms, records) {
        Ok((whole, front)) => {
            let last = is_last(seats, room, pending, records);
            let kept = judged(seats, last, whole.as_slice(), front.as_slice());
            confirmed(alloc, seats, records, kept)
        }
        Err(error) => Err(error),
    }
}

/// What the records are by the texts of the offers too, where they are this by what the seats keep.
fn confirmed<H: Naming>(
    alloc: Global,
    seats: &Vec<NumberedSeat<H>>,
    records: &[Record],
    kept: Found,
) -> Result<Found, LogError>
    ensures ok { IfOk result (IsConfirmed pass_texts (fours_of seats.now.items) records.now kept) }
    ensures refused { IfErr result (λ e. e ≡ LogError.NoMemory) }
{
    match kept {
        Found::Pending => settled(are_told(alloc, seats, but_last(records)), Found::Pending),
        Found::Whole => settled(are_told(alloc, seats, records), Found::Whole),
        Found::Neither => Ok(Found::Neither),
    }
}

/// What the answer says.
fn settled(told: Result<bool, NoMemory>, kept: Found) -> Result<Found, LogError>
    ensures { result ≡ settled_by told kept }
{
    match told {
        Ok(true) => Ok(kept),
        Ok(false) => Ok(Found::Neither),
        Err(_) => Err(LogError::NoMemory),
    }
}

/// What these kept parts are to the seats: of all records, and of those before the last, which may be of what is pending.
fn judged<H: Naming>(
    seats: &Vec<NumberedSeat<H>>,
    last: bool,
    whole: &[Kept],
    front: &[Kept],
) -> Found
    requires whole { length whole.now ≡ 4 * length seats.now.items }
    requires front { length front.now ≡ 4 * length seats.now.items }
    ensures { IsJudged last whole.now front.now (fours_of seats.now.items) result }
{
    let all = are_kept(seats, whole);
    let before = are_kept(seats, front);
    told(both(last, before), all)
}

/// What the two answers say.
fn told(with_pending: bool, whole: bool) -> Found
    ensures pending { with_pending ≡ true → result ≡ Found.Pending }
    ensures whole { with_pending ≡ false → whole ≡ true → result ≡ Found.Whole }
    ensures neither { with_pending ≡ false → whole ≡ false → result ≡ Found.Neither }
{
    match (with_pending, whole) {
        (true, _) => Found::Pending,
        (false, true) => Found::Whole,
        (false, false) => Found::Neither,
    }
}

/// Whether the last record is that of what is pending.
fn is_last<H: Naming>(
    seats: &Vec<NumberedSeat<H>>,
    room: u16,
    pending: &Option<Pending>,
    records: &[Record],
) -> bool
    requires { MayAsk (fours_of seats.now.items) room pending.now }
    ensures { IsTrue result ↔ EndsSo (pending_at (fours_of seats.now.items) room pending.now) records.now }
{
    let Some(pending) = pending else {
        return false;
    };
    let [.., last] = records else {
        return false;
    };
    is_pending_at(seats, room, pending, last)
}

/// Whether the record is that of what is pending in the room, which is one of the seats'.
fn is_pending_at<H: Naming>(
    seats: &Vec<NumberedSeat<H>>,
    room: u16,
    pending: &Pending,
    entry: &Record,
) -> bool
    requires { MayAsk (fours_of seats.now.items) room (Some pending.now) }
    ensures { IsTrue result
        ↔ (pending_at (fours_of seats.now.items) room (Some pending.now) ≡ entry.now ∷ []) }
{
    is_pending_in(
        &seats[usize::from(room / 4)],
        Which::of_room(room),
        room,
        pending,
        entry,
    )
}

/// Whether these parts, by room, are what the seats keep.
fn are_kept<H: Naming>(seats: &Vec<NumberedSeat<H>>, parts: &[Kept]) -> bool
    requires { length parts.now ≡ 4 * length seats.now.items }
    ensures { IsTrue result ↔ AreKept parts.now (fours_of seats.now.items) }
{
    let mut all = true;
    for function in 0..seats.len() {
        let here = are_kept_at(&seats[function], parts, 4 * function);
        all = both(all, here);
    }
    all
}
