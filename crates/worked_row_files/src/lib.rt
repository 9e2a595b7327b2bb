//! Data files of rows with known answers: what the programs read that compare them. C texts with what is known of
//! them, and questions of any kind.
#![tactic(auto)]

mod answers;
mod exits;
mod row;

pub use answers::{Answers, Count, compare, numbered, owned, question_of};
pub use row::{Form, Row, bytes_of, row_of};
