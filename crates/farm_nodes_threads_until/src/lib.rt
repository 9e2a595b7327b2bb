//! The nodes of a farm take their turns on threads in the rooms of the first passes alone, up to one of them: in the rooms of later passes
//! nothing is done, so what the next pass begins with can be handed to others before a node makes an offer there.
#![tactic(auto)]

mod coming_back;
mod leading;
mod places;
mod taking;
mod wrapping;

pub use coming_back::run_threads_until;
