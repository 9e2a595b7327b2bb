//! The lines of a journal that is listed: whose it is, one for each record, and its end.
#![tactic(auto)]

mod lines;

pub use lines::{end_line, head_line, record_line};
