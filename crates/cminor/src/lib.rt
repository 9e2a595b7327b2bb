//! The Cminor program of a checked C program (Leroy 2009, section 3.1), which keeps its meaning: the code that lowers terms,
//! actions and functions, proved to give what the definition of the lowering says; and the language that it is
//! written in.
#![tactic(auto)]

mod actions;
mod choices;
mod functions;
mod globals;
mod keeping;
mod parts;
mod programs;
mod sequences;
mod terms;
mod values;

pub use actions::lower_actions;
pub use choices::choice;
pub use cminor_language::{Cminor, Function};
pub use cminor_syntax::{Expression, Statement};
pub use keeping::lowered_keeps;
pub use programs::lower;
pub use terms::{lower_term, lower_terms};
