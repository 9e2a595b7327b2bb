//! The places of a text's parts: those of the checked program's parts, by the tokens that spell them.
#![tactic(auto)]

mod actions;
mod changes;
mod giving;
mod law;
mod loops;
mod table;

pub use law::places_are_listed;
pub use table::places_of;
