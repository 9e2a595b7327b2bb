//! The linker: from a checked C program and four accepted offers of each of its functions, one for each
//! pass, to one Linear program, which keeps the meaning of the C program. The same over any four passes that
//! fit one behind another.
#![tactic(auto)]

mod chain;
mod errors;
mod functions;
mod laws;
mod linking;
mod names;
mod programs;
mod refusals;

pub use alloc_check::{Alloc, EquationLists, why};
pub use chain::{ChainOf, NamedOf};
pub use cminor::lowered_keeps;
pub use cminor_program_ranges::{lowered_fits, same_head_fits};
pub use constprop_check::ConstProp;
pub use cse_check::Cse;
pub use errors::LinkError;
pub use laws::{text_chain, text_chains};
pub use linearize_check::Linearize;
pub use linking::link as link_passes;
pub use names::are_names;
pub use programs::{Chain, Named, link, link_translated, translated};
