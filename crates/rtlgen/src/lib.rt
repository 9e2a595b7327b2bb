//! The translation of Cminor to RTL (Leroy 2009, sections 3.1 and 3.2): the RTL program of a Cminor program, which
//! keeps its meaning, unless some function needs more nodes than can be numbered. Translated functions are in range;
//! `proofs/Examples` reads the translation on small functions.
#![tactic(auto)]

mod errors;
mod functions;
mod law;
mod programs;

pub use errors::GenError;
pub use law::{generated_fits, generated_is_small};
pub use programs::translate;
