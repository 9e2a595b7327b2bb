//! Lists of the nodes of a farm, each with a value for each function: they are made function by function, and offers are taken out of
//! them so.
#![tactic(auto)]

mod adding;
mod taking;

pub use adding::{add_each, none_yet};
pub use taking::take_each;
