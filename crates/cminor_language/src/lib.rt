//! Cminor, the first language of the pipeline: statements and expressions over variables and globals. Each
//! function has one spelling, and a program's run has C's bound.
#![tactic(auto)]

mod copying;
mod equal;
mod function;
mod language;
mod reading;
mod same;

pub use cminor_codec::sequence;
pub use function::Function;
pub use language::Cminor;
