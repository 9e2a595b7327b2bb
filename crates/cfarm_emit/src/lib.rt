//! The command `emit`: a whole program's form, from a C text: what the text is lowered and translated to, and what one node's chains make
//! of that, by the baselines or by optimisers that nobody trusts.
#![tactic(auto)]

mod emitting;
mod error;
mod forms;
mod offering;
mod texts;
mod thirds;

pub use emitting::emit;
pub use error::EmitError;
