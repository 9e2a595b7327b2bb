//! The offers of a program's functions as one node alone makes them, and C programs compiled by them. They are the baselines', or those of
//! optimisers that nobody trusts: what a pass does not accept, or is not offered, is replaced by its baseline.
#![tactic(auto)]

mod baselines;
mod compiling;
mod errors;
mod makers;

pub use baselines::ExactBaselines;
pub use chains::{Chain, LinkError, Named, Offers, link, translated};
pub use compiling::{all_offers, compile};
pub use errors::CompileError;
pub use makers::Maker;
