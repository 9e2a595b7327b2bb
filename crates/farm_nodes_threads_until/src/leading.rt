//! Whether a node leads a room.

use farm_nodes_turn_node::{NumberedSeat, Which, WordSeat};
use rooms_hall::Naming;

/// Whether the node's own ballot is under way, and it has promised no higher one.
fn leads(seat: &WordSeat) -> bool {
    match seat.ballot() {
        Some(ballot) => ballot >= seat.kept().promised(),
        None => false,
    }
}

/// Whether the node leads the room of one pass of the function.
pub(crate) fn leads_in<H: Naming>(numbered: &NumberedSeat<H>, pass: Which) -> bool {
    match pass {
        Which::Constants => leads(&numbered.seat.first.words),
        Which::Expressions => leads(&numbered.seat.second.words),
        Which::Allocation => leads(&numbered.seat.third.words),
        Which::Order => leads(&numbered.seat.fourth.words),
    }
}
