//! The checker of C texts: exactly the well formed are accepted, and each is then a program whose names are
//! resolved (C99 6.2, 6.5 and 6.7 to 6.9).
#![tactic(auto)]

mod bodies;
mod checking;
mod declaration;
mod progress;
mod unit;

pub use bodies::bodies_of;
pub use c_checker_rules::{CProgram, CheckError};
pub use checking::check;
pub use declaration::{declare, take_global, take_prototype};
pub use progress::Progress;
pub use unit::beginning;
