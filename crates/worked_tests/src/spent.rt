//! Ballots are spent: the last one of a node is its highest below 65,536.

use crate::opened::majority_seats;
use paxos_core_world::kept::Kept;
use rooms_seat::WordSeat;

/// Which node starts a ballot, and which it is, or the number of its refusal.
const STARTS: [(usize, u16); 4] = [(2, 65_534), (1, 501), (0, 65_535), (0, 501)];

/// What a node has kept that has started and promised a ballot near the last one.
fn kept_at(ballot: u32) -> Kept {
    match Kept::of(false, ballot, ballot, None) {
        Some(kept) => kept,
        None => Kept::nothing(),
    }
}

/// The ballot that the seat starts, or the number of its refusal.
fn started(seat: &mut WordSeat) -> u16 {
    match seat.start() {
        Ok(ballot) => ballot,
        Err(error) => error.number(),
    }
}

/// Whether the seats start these ballots and are refused, in turn.
fn are_started(seats: &mut [WordSeat]) -> bool {
    for (node, ballot) in STARTS {
        match seats.get_mut(node) {
            Some(seat) => {
                if started(seat) != ballot {
                    return false;
                }
            }
            None => return false,
        }
    }
    true
}

#[test]
fn last_ballots_are_started_once(rt: HostRuntime) {
    let kept = [kept_at(65_532), kept_at(65_533), kept_at(65_531)];
    let mut seats = majority_seats(rt.alloc(), &kept, 3);
    assert!(rt; are_started(&mut seats));
}
