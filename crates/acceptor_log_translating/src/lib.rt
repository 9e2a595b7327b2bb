//! An old journal's bytes, translated to the text of the new journal: the records are read one by one, and what they leave of
//! each room is kept, so memory is taken for the rooms and for the text.
#![tactic(auto)]

mod finding;
mod stepping;
mod translating;

pub use translating::{Text, translate};
