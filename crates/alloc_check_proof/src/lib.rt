//! What the laws of the third pass stand on: rows of equations at marked nodes, from which the equations at the other nodes are told, and
//! that those are right by the rules wherever whole lists are; certificates have one spelling, read and written; and what register
//! allocation accepts keeps the meaning of whole programs: when states and waiting frames of both go together, and the theorem.
#![tactic(auto)]

mod filled_law;
mod law;
mod reading;
mod writing;

pub use alloc_check_fill::{needed_before, rank, tidy};
pub use filled_law::{filled_are_right, marked_suffice};
pub use law::{allocated_keeps, right_keep};
pub use reading::read_equation;
pub use writing::push_equation;
