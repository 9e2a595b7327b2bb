//! Why an offer is not accepted.

ghost use Rattle.std.specs.Prelude.{◌≡◌};
ghost use Rattle.cfarm_judge.specs.Lines.{source_status_of, status_of};
ghost use Rattle.cfarm_judge.specs.Passing.{told_of};

use bundle_offers::{OfferFault, PassNumber};
use cfarm_output::form_status;
use farm_nodes_source::SourceFault;
use lang_base::{Fault, FormError};

/// Why an offer is not accepted: the first of these that holds, but for want of memory and for what the writer refuses.
#[derive(Debug, PartialEq, Eq, Drop)]
pub enum JudgeError {
    /// A growth of memory was refused.
    NoMemory,
    /// The text is not compiled.
    Source(SourceFault),
    /// The text has no function of the name (603).
    NoFunction,
    /// The bytes are no written offer.
    Form(FormError),
    /// The offer is one of pass 1, and its input is not the function (602).
    Unchained,
    /// The pass does not accept the offer, and why (301).
    Refused(PassNumber, Fault),
    /// The answer could not be written.
    Write,
}

impl JudgeError {
    /// The exit status of the program.
    pub fn status(&self) -> u8
        ensures { result ≡ status_of self.now }
    {
        match self {
            JudgeError::NoMemory => 7,
            JudgeError::Source(fault) => source_status(fault),
            JudgeError::Form(fault) => form_status(*fault),
            JudgeError::NoFunction | JudgeError::Unchained | JudgeError::Refused(_, _) => 1,
            JudgeError::Write => 4,
        }
    }
}

/// A text is refused, unless there was no memory to tell.
fn source_status(fault: &SourceFault) -> u8
    ensures { result ≡ source_status_of fault.now }
{
    match fault.number() {
        1 => 7,
        _ => 1,
    }
}

/// What is told of an offer that does not stand.
pub(crate) fn told(fault: OfferFault) -> JudgeError
    ensures { result ≡ told_of fault }
{
    match fault {
        OfferFault::NoMemory => JudgeError::NoMemory,
        OfferFault::Unchained(_) => JudgeError::Unchained,
        OfferFault::Refused(pass, why) => JudgeError::Refused(pass, why),
    }
}
