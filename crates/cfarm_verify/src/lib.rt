//! The command `verify`: whether a linked program is that of a C text, by the offers of a bundle. Who made either is not asked: each
//! offer is checked by its pass here, and what the four of each function chain to has to be the program. Then the program keeps the
//! text's meaning.
#![tactic(auto)]

mod checking;
mod error;
mod line;
mod linking;
mod naming;
mod verifying;

pub use cfarm_verify_reading::{Forms, prepared, read_forms};
pub use error::VerifyError;
pub use line::VerifyLine;
pub use verifying::verify;
