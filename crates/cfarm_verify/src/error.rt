//! Why a program is not verified.

ghost use Rattle.std.specs.Prelude.{◌≡◌};
ghost use Rattle.cfarm_verify.specs.Lines.{fault_status_of, source_status_of, status_of};

use bundle_offers::OfferFault;
use cfarm_output::form_status;
use farm_nodes_source::SourceFault;
use lang_base::FormError;

/// Why a program is not verified: the first of these that holds, but for want of memory and for what the writer refuses.
#[derive(Debug, PartialEq, Eq, Drop)]
pub enum VerifyError {
    /// A growth of memory was refused.
    NoMemory,
    /// The text is not compiled.
    Source(SourceFault),
    /// The program's bytes are no program of Linear.
    Program(FormError),
    /// The bundle's bytes are no bundle.
    Bundle(FormError),
    /// The bundle is of another text (404).
    OtherSource,
    /// The program's functions have other names than the text's, or are not as many (603).
    ProgramNames,
    /// The bundle is not of as many functions as the text has (603).
    BundleNames,
    /// The offers of the function of this name do not stand.
    Offer(OfferFault, String),
    /// The function of this name is not what its offers come to (604).
    OtherFunction(String),
    /// The program's globals are not the text's (604).
    OtherGlobals,
    /// The answer could not be written.
    Write,
}

impl VerifyError {
    /// The exit status of the program.
    pub fn status(&self) -> u8
        ensures { result ≡ status_of self.now }
    {
        match self {
            VerifyError::NoMemory => 7,
            VerifyError::Source(fault) => source_status(fault),
            VerifyError::Program(fault) | VerifyError::Bundle(fault) => form_status(*fault),
            VerifyError::Offer(fault, _) => fault_status(*fault),
            VerifyError::OtherSource
            | VerifyError::ProgramNames
            | VerifyError::BundleNames
            | VerifyError::OtherFunction(_)
            | VerifyError::OtherGlobals => 1,
            VerifyError::Write => 4,
        }
    }
}

/// A text is refused, unless there was no memory to tell.
fn source_status(fault: &SourceFault) -> u8
    ensures { result ≡ source_status_of fault.now }
{
    match fault.number() {
        1 => 7,
        _ => 1,
    }
}

fn fault_status(fault: OfferFault) -> u8
    ensures { result ≡ fault_status_of fault }
{
    match fault {
        OfferFault::NoMemory => 7,
        OfferFault::Unchained(_) | OfferFault::Refused(_, _) => 1,
    }
}
