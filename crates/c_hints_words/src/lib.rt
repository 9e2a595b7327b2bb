//! The words and tokens of a C text that hints go by: of which kind one is, what stands in front of a place, and what is declared.
#![tactic(auto)]

mod before;
mod declared;
mod kinds;
mod words;

pub use before::{Before, tokens_before};
pub use declared::{declared_before, declared_behind, near_name, parts_behind};
pub use kinds::{
    byte_of, is_as, is_assignment, is_headed, is_keyword, is_operator, is_type, is_word, or_else,
    wants_value,
};
pub use words::{bytes_between, token_at, token_from, word_between};
