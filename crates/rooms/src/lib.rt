//! A room: nodes that agree by Paxos on one node's offer, over shared atomic words and write-once cells. Each call of a
//! seat is written as one load or store of one word, but `meet` and `forget`, which load more: its contract says which step
//! of the protocol that is, and counts no loads. None takes a lock or waits, and all but `offer` take no memory. What a seat
//! learns is learned in a run of the protocol that has the room's words.
#![tactic(auto)]

mod error;
mod meeting;
mod room;
mod seat;

pub use error::RoomError;
pub use meeting::meet_seats;
pub use room::{Room, seats_of};
pub use rooms_cells::Put;
pub use rooms_seat::act::SeatAct;
pub use rooms_seat::{
    CoreError, FourDealers, Meeting, WordSeat, acceptor, act, open_four, proposer,
};
pub use seat::Seat;
