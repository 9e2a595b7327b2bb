//! Opening the rooms of a function: what the nodes have kept of them, side by side, and the one number that the function's rooms have. A
//! room that cannot be opened is named.
#![tactic(auto)]

mod fault;
mod law;
mod numbering;
mod parts;

pub use fault::{RoomFault, Unopened};
pub use law::left_is_settled;
pub use numbering::numbered;
pub use parts::parts_of;
