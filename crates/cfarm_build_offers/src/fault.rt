//! Why an offer of a file is not used.

ghost use Rattle.std.specs.Prelude.{◌≡◌};
ghost use Rattle.cfarm_build_offers.specs.Faults.{fault_of, name_of, number_of};

use lang_base::FormError;

/// Why an offer of a file is not used.
#[derive(Clone, Copy, Debug, PartialEq, Eq)]
pub enum GivenFault {
    /// The file is there and cannot be read.
    Device,
    /// The bytes end within the form.
    Short,
    /// The first byte is not the pass's number, or that of a part is not its language's tag.
    BadTag,
    /// A part that no value is spelled with, or bytes behind the form.
    NotCanonical,
    /// A count over its limit.
    TooLarge,
    /// The pass does not accept it.
    Refused,
    /// Its input is not the function, or nothing that the node asked for.
    Unchained,
}

impl GivenFault {
    /// What is wrong with the bytes. None where there was no memory, which says nothing of them.
    pub fn of(fault: FormError) -> Option<GivenFault>
        ensures { result ≡ fault_of fault }
    {
        match fault {
            FormError::NoMemory => None,
            FormError::Short => Some(GivenFault::Short),
            FormError::BadTag => Some(GivenFault::BadTag),
            FormError::NotCanonical => Some(GivenFault::NotCanonical),
            FormError::TooLarge => Some(GivenFault::TooLarge),
        }
    }

    /// The number that a user is shown.
    pub fn number(self) -> u16
        ensures { result ≡ number_of self }
    {
        match self {
            GivenFault::Short => 101,
            GivenFault::BadTag => 102,
            GivenFault::NotCanonical => 103,
            GivenFault::TooLarge => 104,
            GivenFault::Refused => 301,
            GivenFault::Device => 401,
            GivenFault::Unchained => 602,
        }
    }

    /// The name beside it.
    pub fn name(self) -> &'static str
        ensures { result.now ≡ name_of self }
    {
        match self {
            GivenFault::Short => "Short",
            GivenFault::BadTag => "BadTag",
            GivenFault::NotCanonical => "NotCanonical",
            GivenFault::TooLarge => "TooLarge",
            GivenFault::Refused => "Refused",
            GivenFault::Device => "Device",
            GivenFault::Unchained => "Unchained",
        }
    }
}
