//! What every language and every pass of the farm is stated in: programs and what their runs show,
//! languages with one spelling for each function, passes whose checks are sound, and what it means
//! that one program keeps the meaning of another.
#![tactic(auto)]

mod errors;
mod fault;
mod keeping;
mod language;
mod oracle;
mod pass;
mod program;
mod reading;
mod row;
mod shown;
mod writing;

pub use errors::{FormError, NoMemory, PassError};
pub use fault::Fault;
pub use keeping::{keeps_all, keeps_composes};
pub use language::Language;
pub use oracle::Oracle;
pub use pass::Pass;
pub use program::{Global, Named, Program};
pub use reading::{read_byte, read_count, read_u16, read_u16_below, read_u32};
pub use row::Row;
pub use shown::Shown;
pub use writing::{push_byte, push_u16, push_u32};
