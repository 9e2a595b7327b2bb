//! Whether texts of offers go on one from the other: those that are chosen in the four rooms of a function, as far as they are. What does not go
//! on so is never linked.
#![tactic(auto)]

mod chained;
mod step;
mod texts;

pub use chained::are_chained;
pub use texts::Texts;
