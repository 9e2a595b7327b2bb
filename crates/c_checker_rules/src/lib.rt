//! When a C text is well formed, and what it then means, as rules on its tree (C99 6.2, 6.5 and 6.7 to 6.9,
//! cut to this project's profile). Its types are the words of the rules; `specs/` has the rules.
#![tactic(auto)]

mod context;
mod errors;
mod law;
mod meaning;
mod program;
mod signature;

pub use context::Context;
pub use errors::CheckError;
pub use law::updates_as_assigned;
pub use meaning::Meaning;
pub use program::CProgram;
pub use signature::Signature;
