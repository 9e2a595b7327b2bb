//! What a seat of a room holds, as plain data: what it can be asked, what holds of every seat, what a call of one does,
//! and the lemmas that each call keeps it.
#![tactic(auto)]

pub mod act;

pub use rooms_table::view;
