//! The questions about native code.

use crate::asking::ask;
use std::alloc::Global;
use worked_row_files::{Answers, fine, some};

/// Answers each of them.
#[derive(Drop)]
pub struct Rows;

/// The answers for each of the second words, with spaces between.
fn all_told(alloc: Global, operator: &str, words: &str) -> Option<String> {
    let (first, seconds) = some!(words.split_once(' '));
    let x = fine!(first.parse());
    let mut told = String::new(alloc);
    for second in seconds.split(',') {
        let y = fine!(second.parse());
        let word = some!(ask(alloc, operator, x, y));
        let next = if told.is_empty() {
            format!(in alloc; "{word}")
        } else {
            format!(in alloc; "{told} {word}")
        };
        told = fine!(next);
    }
    Some(told)
}

impl Answers for Rows {
    fn answer(&mut self, alloc: Global, question: &str, _row: u64) -> Option<String> {
        let (operator, words) = some!(question.split_once(' '));
        all_told(alloc, operator, words)
    }
}
