//! What the texts of several languages share: of whole programs a title, a line for each global, and the functions; of LTL and Linear the
//! words of locations, plain instructions and tests. Programs with one text are one program, where the texts of functions tell those apart,
//! and words tell what they are of (`proofs/`).
#![tactic(auto)]

mod acts;
mod global;
mod places;
mod program;

pub use acts::{push_act_left, push_act_right, push_test, push_told, push_value};
pub use global::push_globals;
pub use places::{Located, push_target, word_of_location, word_of_register};
pub use program::push_program;
