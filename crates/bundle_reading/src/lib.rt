//! The texts of a bundle's offers: those that are written of offers, and the parts that texts spell, whether the passes accept the parts
//! or not. The texts are read one by one, and what was found of them, beside what was answered of it, is gathered.
#![tactic(auto)]

mod four;
mod gathering;
mod knowing;
mod laws;
mod reading;
mod writing;

pub use chains::{Alloc, EquationLists, why};
pub use four::Four;
pub use gathering::{gathered, places_for};
pub use knowing::known_all;
pub use laws::one_bundle;
pub use reading::{four_of, read_one};
pub use writing::{texts_of, written};
