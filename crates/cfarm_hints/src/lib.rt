//! What a user is shown beside the line of a command over a text or a program: nothing where standard error is no terminal. A refused text is
//! explained, where a bound was reached the option that raises it is told, and of a journal of another build in what it is another.
//!
//! An explanation is a sentence or a hint of `c_hints`, the line of the text, and a mark below it.
#![tactic(auto)]

mod differing;
mod excerpt;
mod explaining;
mod hints;

pub use cfarm_run::TextError;
pub use differing::difference_of;
pub use hints::{
    declared_of, explained, hint_of, hint_where, is_amid, of_depth, of_limit, of_text,
};
