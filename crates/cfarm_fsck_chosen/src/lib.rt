//! What is chosen in the rooms of functions, as the last votes of their nodes show it, and whether the offers that are chosen go on one from the
//! other: of those of a function that do not, no program is ever linked.
#![tactic(auto)]

mod chosen;
mod laws;
mod linking;
mod parts;

pub use chosen::{chosen_in, is_under};
pub use laws::chosen_exactly;
pub use linking::unchained_in;
pub use parts::room_parts;
