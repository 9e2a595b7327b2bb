//! What a node does in one room with its journal: it puts down the record of a step before it takes the step. Each call
//! says what a crash at any moment of it leaves, and where it is stopped, why and over which step.
#![tactic(auto)]

mod acting;
mod hearing;
mod stop;

pub use acting::{act, record_of};
pub use hearing::{hear, hear_all};
pub use stop::{Pending, Stop};
