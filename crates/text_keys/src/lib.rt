//! The words of the texts of programs, and how lines are made of them. No two words have one text, a line of words is
//! told by its text, and so are the first line of a function and items with their numbers (`proofs/`): what is
//! printed of a program tells which program it is.
#![tactic(auto)]

mod head;
mod key;
mod number;
mod numbered;
mod word;
mod writing;

pub use head::push_head;
pub use key::{Key, condition_key, key_text};
pub use number::push_number;
pub use numbered::{WriteNumbered, push_numbered};
pub use word::{Letter, Word};
pub use writing::{
    SpacedWord, end_line, push_bytes, push_count, push_each_word, push_key, push_word,
};
