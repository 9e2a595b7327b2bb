//! Bundles: the digest of a C text, and the four written offers of each of its functions, by which whoever trusts no builder finds
//! that a linked program keeps the text's meaning. What a bundle is as bytes stands here; what its offers are worth is found
//! elsewhere. Each bundle has one text. A reader takes memory for bytes that are there, whatever a length says.
#![tactic(auto)]

mod bundle;
mod reading;
mod writing;

pub use bundle::{Bundle, Texts};
pub use reading::read;
pub use writing::write;
