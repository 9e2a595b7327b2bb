//! The pieces of native code that need no frame, one function a piece: what is known before an instruction, and the blocks of operators
//! and of cells of globals. Each gives exactly what `native_lowering_definition` says, and refuses nothing but where there is no memory.
//! None calls itself.
#![tactic(auto)]

mod adding;
mod dividing;
mod facts;
mod kinds;
mod operating;
mod powers;
mod reaching;
mod registers;

pub use adding::add;
pub use facts::{Facts, after, answered};
pub use kinds::{Kind, condition_of, kind_of};
pub use operating::{add_operator, compare};
pub use reaching::{add_load, add_store};
pub use registers::register_of;
