//! Offers: an input, an output and a certificate for which a pass says yes. The type keeps that it does, so whoever holds an offer holds a
//! proof; each offer has one spelling and one name, and what is read from anybody's bytes is checked before it becomes an offer. What an
//! optimiser proposes becomes an offer where the pass accepts it, else the baseline does.
#![tactic(auto)]

mod baselines;
mod choosing;
mod errors;
mod form;
mod laws;
mod offer;
mod parts;

pub use baselines::{AcceptedBaselines, Baselines, baseline_of};
pub use choosing::{Choice, choice_of, choose};
pub use errors::OfferError;
pub use laws::{offer_keeps, one_text};
pub use offer::Offer;
pub use parts::{Parts, PartsOf};
