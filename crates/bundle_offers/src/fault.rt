ghost use Rattle.std.specs.Prelude.{◌≡◌};
ghost use Rattle.bundle_offers.specs.Standing.{number_of};

use lang_base::{Fault, NoMemory};

/// One of the four passes.
#[derive(Clone, Copy, Debug, PartialEq, Eq)]
pub enum PassNumber {
    First,
    Second,
    Third,
    Fourth,
}

impl PassNumber {
    /// From 1 to 4.
    pub fn number(self) -> u8
        ensures { result ≡ number_of self }
    {
        match self {
            PassNumber::First => 1,
            PassNumber::Second => 2,
            PassNumber::Third => 3,
            PassNumber::Fourth => 4,
        }
    }
}

/// Why the four offers of a function do not stand: the first of them that does not.
#[derive(Clone, Copy, Debug, PartialEq, Eq)]
pub enum OfferFault {
    /// A growth of memory was refused, which says nothing of the offers.
    NoMemory,
    /// The offer's input is not the output of the offer before it, or the first one's is not the function (602).
    Unchained(PassNumber),
    /// The pass does not accept the offer, and why (301).
    Refused(PassNumber, Fault),
}

impl From<NoMemory> for OfferFault {
    ghost use Rattle.std.specs.Prelude.{◌≡◌};
    ghost use Rattle.bundle_offers.specs.declared.fault.OfferFault.TheVariants.{NoMemory};

    ghost from_gives = { λ _ e. e ≡ NoMemory };

    fn from(_e: NoMemory) -> OfferFault {
        OfferFault::NoMemory
    }
}
