//! What the commands share of what they print: bytes that are printed whole, lines for a user, the line of a fault of bytes, and an output
//! that is flushed at line feeds where somebody looks at it.
#![tactic(auto)]

mod errors;
mod lines;
mod paced;
mod printing;

pub use errors::{ErrorLines, ErrorWriter, Unwritten};
pub use lines::{FormLine, FormLineIn, form_status};
pub use paced::Paced;
pub use printing::{print_all, print_whole};
