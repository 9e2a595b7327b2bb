//! Which registers of a function are live at which nodes: those of which a use is reached from there before a definition.
//! They are found register by register, by a walk backwards from the uses, so in time linear in the places that are entered
//! and the edges that lead to them.
#![tactic(auto)]

mod index;
mod numbers;
mod uses;
mod walk;

pub use numbers::Numbers;
pub use walk::live_registers;
