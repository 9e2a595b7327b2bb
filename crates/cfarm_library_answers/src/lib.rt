//! What the commands answer, over bytes: a status, what is written, and the line that is told, as `check`, `interpret`, `exec`, `emit`,
//! `show`, `verify` and `sim` have them where standard error is no terminal. There is no file, no thread and no state; where memory is
//! refused, the answer says so.
#![tactic(auto)]

mod answer;
mod looking;
mod running;

pub use answer::{Answer, no_memory, version};
pub use looking::{emit_by, show, verify};
pub use running::{check, draw, exec, interpret, simulate};
