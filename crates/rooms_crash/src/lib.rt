//! What a crash of all nodes of a room leaves, told of the seats of its nodes: in a run of the room in which every node rests, each
//! journal holds what its node keeps, or that with a step that was recorded and not taken. Seats that met, and met again, have one.
#![tactic(auto)]

mod law;

pub use law::{seats_at_rest, seats_of_runs, seats_that_met};
pub use rooms_meeting::act;
