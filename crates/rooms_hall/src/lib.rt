//! A hall: one word from which numbers are drawn for rooms. A number is drawn first, then the room's tables are opened with it, and then
//! it is given to the room, once. The hall's rule: the word is above all numbers that were drawn, and what was given one number is one
//! room. So two claims of one hall are told apart by their numbers, and with equal numbers they are known to be of one room. No call
//! takes a lock or waits.
#![tactic(auto)]

mod claim;
mod drawn;
mod hall;
pub mod rule;
pub mod view;

pub use claim::Claim;
pub use drawn::Drawn;
pub use hall::{DrawError, Hall, Naming, Opened};
pub use rule::Claiming;
