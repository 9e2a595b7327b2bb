//! A run of a program of Linear in memory, and what its instructions do there, one at a time: each is proved to be the step of the meaning.
//! Nothing is printed.
#![tactic(auto)]

mod acting;
mod asking;
mod callers;
mod calling;
mod outcome;
mod returning;
mod run;
mod step;
mod words;

pub use acting::do_act;
pub use asking::ask;
pub use callers::{Caller, Callers};
pub use calling::call;
pub use outcome::Outcome;
pub use returning::come_back;
pub use run::Run;
pub use step::Step;
pub use words::{Words, fresh, move_word, read};
