//! What `verify` finds of each of its files by itself, side by side: the C text, made ready for the first pass, each function lowered and
//! translated by itself in a thread of its own; the linked program; and the bundle, with whether its offers stand.
#![tactic(auto)]

mod begun;
mod bodies;
mod forms;
mod functions;
mod globals;
mod parts;
mod preparing;
mod programs;
mod reading;
mod translating;

pub use forms::Forms;
pub use preparing::prepared;
pub use reading::read_forms;
