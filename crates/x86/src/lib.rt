//! What native code does: the meaning of a program, one instruction a step, as the processor and the calls of the system define it; and
//! an interpreter that is proved to be that meaning. What is left open is drawn from a stream of words.
#![tactic(auto)]

mod comparing;
mod drawing;
mod framing;
mod jumping;
mod leaving;
mod moving;
mod operating;
mod outcome;
mod reaching;
mod running;
mod stepping;
mod whole;

pub use running::Ran;
pub use whole::run;
