//! What a farm compiles: the checked program of a C text, its translation to RTL, with which the first pass of each function
//! begins, and the digest of the text by which the journals of one source know each other.
#![tactic(auto)]

mod fault;
mod naming;
mod preparing;
mod source;
mod translating;

pub use fault::SourceFault;
pub use naming::{name_of, text_of};
pub use preparing::{prepare, shared};
pub use source::Source;
pub use translating::translated;
