//! The texts of written offers: a title with the number of the pass, the input and the output as functions of their languages, and the
//! lines of the certificate. Offers with one text are one offer.
#![tactic(auto)]

mod entry_words;
mod laws;
mod pushing;
mod texts;
mod writing;

pub use laws::one_offer_shown;
pub use texts::text_of_offer;
