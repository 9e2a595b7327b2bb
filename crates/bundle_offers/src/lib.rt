//! The offers of a bundle: what its texts spell, and whether the offers stand. Nobody is trusted: an offer is worth something once its
//! pass has accepted it here, and where it goes on from the one before it.
#![tactic(auto)]

mod fault;
mod judged_bundle;
mod judging;
mod reading;
mod reasons;

pub use bundle_reading::{Alloc, texts_of, written};
pub use fault::{OfferFault, PassNumber};
pub use judged_bundle::JudgedBundle;
pub use judging::{first_fault, judge_all, stands};
pub use reading::read_judged;
pub use reasons::{PassReasons, Reasons};
