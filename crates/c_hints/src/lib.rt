//! What is said of a fault of a C text beside its sentence: a hint, by a table that each hint is proved to stand in.
//!
//! A hint goes by the token that was found, those before it, and the names that are declared. It is a guess: the fault is what the fixed line says.
#![tactic(auto)]

mod hinting;
mod keywords;
mod missing;
mod names;
mod numbers;
mod syntax;

pub use hinting::{declared_at, hint_at};
