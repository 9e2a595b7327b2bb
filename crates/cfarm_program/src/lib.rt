//! The whole program as one function, `run`: the words of a command line, files, texts for help and mistakes, a meter and two writers go in, and
//! the exit status comes out. `main` calls it on the real ones, and tests on others. What the words ask for is
//! `cfarm_command_line::asked_for`.
//!
//! | Status | When | Line on standard error |
//! |---|---|---|
//! | 0 | done | `ended R` after a run, else nothing |
//! | 1 | the file is refused | `refused NUMBER Name at OFFSET`, `refused NUMBER Name` for bytes, or `refused 240 TooManyNodes in NAME` |
//! | 2 | the command line; quorums that need not meet; a prefix that is no C name; a file that cannot be read or written; a schedule with a line that is none | the text of `clap`; `quorums N Q1 Q2`; `prefix PREFIX`; `file PATH`; `schedule LINE` |
//! | 3 | undecided | `undecided` |
//! | 4 | a journal is refused or fails | `journal NUMBER Name node I`, `journal NUMBER Name room R` |
//! | 4 | what was learned does not link | `link NUMBER Name in FUNCTION` |
//! | 4 | the output could not be written, or standard error | `write 701`, or nothing |
//! | 5 | the program went wrong, or with `--expect R` did not end with R | `wrong`, `ended R`, `running` |
//! | 6 | the bound was reached | `running` |
//! | 7 | no memory, or a thread cannot be made | `memory` |
#![tactic(auto)]

mod mistake;
mod performing;
mod program;
mod running;
mod wording;

pub use cfarm_build::Host;
pub use program::{run, tell_no_text};
pub use wording::{OwnWords, Wording};
