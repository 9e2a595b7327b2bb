//! The commands that check or run one file, as functions over bytes and writers: what `main` and the tests call. `check_text` tells what a
//! C text declares, `interpret` runs its program as the C standard means it, and `exec` runs a linked program.
//!
//! Beside the fixed line of a refused text there is its place, by line and column; a sentence (`sentence_of`); and the line that compilers tell
//! editors (`PlacedError`), with a hint where one is given.
#![tactic(auto)]

mod checking;
mod closing;
mod command_error;
mod exec_error;
mod executing;
mod interpreting;
mod placed_error;
mod placed_line;
mod reading;
mod sentences;

pub use c_texts::TextError;
pub use checking::check_text;
pub use closing::{Closing, status_of, status_where};
pub use command_error::CommandError;
pub use exec_error::ExecError;
pub use executing::exec;
pub use interpreting::interpret;
pub use linear::run;
pub use placed_error::PlacedError;
pub use placed_line::PlacedLine;
pub use reading::read_whole;
pub use sentences::sentence_of;
