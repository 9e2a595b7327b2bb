//! How the tokens and the white space of a C text are spelled (C99 6.4, cut to this project's profile): what the keywords,
//! constants and punctuators are looked up by, what a part of a text is, and what is refused.
#![tactic(auto)]

mod bytes;
mod characters;
mod keywords;
mod numbers;
mod punctuators;

pub use bytes::{byte_at, is_white, is_word_byte};
pub use characters::character_value;
pub use keywords::keyword;
pub use numbers::constant;
pub use punctuators::longest_punctuator;
