//! Rows of C texts and of programs: what the lexer and the readers make of texts, functions and programs in their forms, and C texts with
//! known answers, through the commands and as linked programs.
#![tactic(auto)]

mod expressions;
mod form_answers;
mod form_rows;
mod forms;
mod heights;
mod joined;
mod languages;
mod linked;
mod nodes;
mod operators;
mod program_rows;
mod ranges;
mod runs;
mod text_rows;
mod texts;
mod tokens;
mod told;
mod translated;
mod trees;

pub use form_answers::tell_forms;
pub use program_rows::tell_programs;
pub use text_rows::tell_texts;
