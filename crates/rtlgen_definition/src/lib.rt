//! The translation of Cminor to RTL, as a definition on trees, and that it keeps the meaning of whole
//! programs. The control-flow graph of a function is made from its end; a variable is the register of
//! its number, and the temporaries stand behind the variables.
#![tactic(auto)]

mod law;

pub use law::generated_keeps;
