//! The law of the texts of offers, as the contract of a call that does nothing else.

ghost use Rattle.std.specs.Prelude.{◌≡◌, ℕ, List};
ghost use Rattle.text_offers.specs.Files.{IsOfferTextOf};

/// Written offers with one text are one offer.
pub fn one_offer_shown()
    ensures { (bytes others text : List ℕ) → IsOfferTextOf bytes text → IsOfferTextOf others text → bytes ≡ others }
{}
