//! `verify` in one thread: whether a linked program is that of a C text, by the offers of a bundle. It answers as the command does, by
//! the same checks of the same four passes, one behind the other, for a caller that starts no threads.
#![tactic(auto)]

mod checking;
mod judging;
mod linking;
mod naming;
mod preparing;
mod reading;
mod verifying;

pub use cfarm_verify::VerifyLine;
pub use verifying::verify;
