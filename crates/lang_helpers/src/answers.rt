//! What a writer answers.

ghost use Rattle.lang_helpers.specs.Meant.{Means};

use std::io;
use std::io::ErrorKind;

/// What a writer's answer means to who offered it bytes.
#[derive(Clone, Copy, Debug, PartialEq, Eq)]
pub enum Answer {
    /// It took so many of the bytes, from the first one on.
    Taken(usize),
    /// A signal came between: nothing was taken, and the bytes may be offered again.
    Interrupted,
    /// It takes no more.
    Failed,
}

/// What `write` answered to so many bytes. That it took none of them, or more than there are, is a failure.
pub fn meaning(answer: io::Result<usize>, offered: usize) -> Answer
    ensures { Means offered answer result }
{
    match answer {
        Ok(taken) if 0 < taken && taken <= offered => Answer::Taken(taken),
        Ok(_) => Answer::Failed,
        Err(fault) => match fault.kind() {
            ErrorKind::Interrupted => Answer::Interrupted,
            _ => Answer::Failed,
        },
    }
}
