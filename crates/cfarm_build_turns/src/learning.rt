//! In how many rooms a node has learned.

use farm_nodes_turn_node::NumberedSeat;
use rooms_hall::Naming;

/// Whether in all four rooms of a function a value is learned.
fn has_learned<H: Naming>(numbered: &NumberedSeat<H>) -> bool {
    numbered.seat.first.learned().is_some()
        && numbered.seat.second.learned().is_some()
        && numbered.seat.third.learned().is_some()
        && numbered.seat.fourth.learned().is_some()
}

/// Whether in all rooms of all functions a value is learned.
pub(crate) fn have_learned_all<H: Naming>(seats: &[NumberedSeat<H>]) -> bool {
    for function in 0..seats.len() {
        if !has_learned(&seats[function]) {
            return false;
        }
    }
    true
}

/// In how many of the four rooms of a function a value is learned.
fn learned_in<H: Naming>(numbered: &NumberedSeat<H>) -> usize {
    usize::from(numbered.seat.first.learned().is_some())
        .saturating_add(usize::from(numbered.seat.second.learned().is_some()))
        .saturating_add(usize::from(numbered.seat.third.learned().is_some()))
        .saturating_add(usize::from(numbered.seat.fourth.learned().is_some()))
}

/// In how many rooms of all functions a value is learned.
pub(crate) fn learned_rooms<H: Naming>(seats: &[NumberedSeat<H>]) -> usize {
    let mut learned = 0usize;
    for function in 0..seats.len() {
        learned = learned.saturating_add(learned_in(&seats[function]));
    }
    learned
}
