//! The command `judge`: whether one written offer, made by whoever, is such as its pass accepts, and, where it is one of pass 1, whether
//! it is of this function of a C text.
#![tactic(auto)]

mod error;
mod finding;
mod judging;
mod line;
mod passes;
mod whole;

pub use error::JudgeError;
pub use line::JudgeLine;
pub use whole::judge;
