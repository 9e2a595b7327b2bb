//! The machine on which C programs run: what is left to do on a stack, with its meaning and its cost; the
//! variables of a run; and what expressions and plain actions do to them.
#![tactic(auto)]

mod cells;
mod evaluation;
mod left;
mod machine;
mod next;
mod operators;
mod plain;
mod scope;
mod stack;

pub use cells::Cells;
pub use evaluation::evaluate;
pub use left::{Cycle, Left, Waiting, same};
pub use machine::Machine;
pub use next::Next;
pub use plain::{Entered, Front, advance, enter, update};
pub use scope::Scope;
pub use stack::Stack;
