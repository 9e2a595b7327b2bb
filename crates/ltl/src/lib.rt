//! LTL, the third language of the pipeline: a graph of blocks over registers and slots. Each function
//! has one spelling, and a program's run is counted in blocks.
#![tactic(auto)]

mod block;
mod copying;
mod equal;
mod function;
mod language;
mod reading;
mod writing;

pub use block::{Block, Body};
pub use function::Function;
pub use lang_helpers::beside;
pub use language::Ltl;
