//! The frame of a function of native code, and the blocks of moves between locations, registers and cells: exactly what
//! `native_lowering_definition` says of them.
#![tactic(auto)]

mod frame;
mod moving;
mod passing;
mod saving;

pub use frame::{Frame, find_frame};
pub use moving::{add_move, add_put};
pub use passing::{add_arguments, add_parameters};
pub use saving::{add_restores, add_saves};
