//! What the optimisers of passes 1 and 2 share: facts of a pass are followed along the edges of a function, through
//! loops, and each node is made what they allow or left, as words or another chooser say. It promises nothing of what it proposes
//! but that each node is in range.
#![tactic(auto)]

mod analysis;
mod chooses;
mod follows;
mod lattice;
mod propose;
mod unreached;

pub use chooses::{Chooses, Each};
pub use follows::{FactOf, Follows};
pub use propose::proposed;
