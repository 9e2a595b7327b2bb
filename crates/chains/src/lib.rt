//! Four offers of each function of a program, one for each pass, each on the output of the one before it, and the program that they
//! link. Who made them does not matter: each is an offer that its pass accepts.
#![tactic(auto)]

mod linking;
mod offering;

pub use linker::{
    Alloc, Chain, Cse, EquationLists, Linearize, LinkError, Named, link, translated, why,
};
pub use linking::link_offers;
pub use offering::Offers;
