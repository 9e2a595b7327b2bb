//! Why something is no offer. `number` is what a user is shown beside the name.

ghost use Rattle.std.specs.Prelude.{◌≡◌};
ghost use Rattle.offers.specs.Refusals.{number_of};

use lang_base::{FormError, NoMemory};
use thiserror::Error;

/// Why something is no offer.
#[derive(Clone, Copy, Debug, PartialEq, Eq, Error)]
pub enum OfferError {
    #[error("NoMemory")]
    NoMemory,
    /// The bytes end within the form.
    #[error("Short")]
    Short,
    /// The first byte is not the pass's number, or a function begins with another tag.
    #[error("BadTag")]
    BadTag,
    /// A part that no value is spelled with, or bytes behind the form.
    #[error("NotCanonical")]
    NotCanonical,
    /// A count over its limit.
    #[error("TooLarge")]
    TooLarge,
    /// The pass does not accept the output.
    #[error("Refused")]
    Refused,
}

impl OfferError {
    /// The number that a user is shown.
    pub fn number(self) -> u16
        ensures { result ≡ number_of self }
    {
        match self {
            OfferError::NoMemory => 1,
            OfferError::Short => 101,
            OfferError::BadTag => 102,
            OfferError::NotCanonical => 103,
            OfferError::TooLarge => 104,
            OfferError::Refused => 301,
        }
    }
}

impl From<NoMemory> for OfferError {
    ghost use Rattle.std.specs.Prelude.{◌≡◌};
    ghost use Rattle.offers.specs.declared.errors.OfferError.TheVariants.{NoMemory};

    ghost from_gives = { λ _ e. e ≡ NoMemory };

    fn from(_e: NoMemory) -> OfferError {
        OfferError::NoMemory
    }
}

impl From<FormError> for OfferError {
    ghost use Rattle.std.specs.Prelude.{◌≡◌};
    ghost use Rattle.offers.specs.Refusals.{refusal_of};

    ghost from_gives = { λ fault e. e ≡ refusal_of fault };

    fn from(fault: FormError) -> OfferError {
        match fault {
            FormError::NoMemory => OfferError::NoMemory,
            FormError::Short => OfferError::Short,
            FormError::BadTag => OfferError::BadTag,
            FormError::NotCanonical => OfferError::NotCanonical,
            FormError::TooLarge => OfferError::TooLarge,
        }
    }
}
