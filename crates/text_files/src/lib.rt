//! The text of a program of any of the four languages, or of a written offer, told by the first bytes. Files with one text are one file.
#![tactic(auto)]

mod error;
mod laws;
mod reading;
mod showing;
mod texts;

pub use error::ShowError;
pub use laws::one_file;
pub use showing::show;
