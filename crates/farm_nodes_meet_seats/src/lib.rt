//! Two nodes of a farm meet: their seats do, room by room, and the functions are counted that both link. Both then link the
//! same code.
#![tactic(auto)]

mod functions;
mod learned;
mod meeting;
mod strangers;

pub use farm_nodes_turn_passes::{NumberedSeat, Seat};
pub use functions::meet_in_function;
pub use learned::{has_learned_offer, learned_offer};
pub use meeting::meet_all_seats;
pub use strangers::are_strangers;
