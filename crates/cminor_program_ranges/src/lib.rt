//! The Cminor program that a checked program is lowered to has a spelling, wherever its functions have C names. Those of
//! an accepted text have: each is spelled by a token of the text.
#![tactic(auto)]

mod accepted;
mod fitting;
mod laws;
mod names;
mod words;

pub use accepted::accepted_has_names;
pub use cminor_lowering_ranges::lowered_fits;
pub use fitting::lowered_program_fits;
pub use laws::same_head_fits;
