//! The questions about agreement.

use crate::calls::calls_told;
use crate::kept_parts::{kept_told, settled_told};
use crate::schedules::{alike_told, random_told};
use crate::steps::steps_told;
use std::alloc::Global;
use worked_row_files::Answers;

/// Answers each of them.
#[derive(Drop)]
pub struct Rows;

impl Answers for Rows {
    fn answer(&mut self, alloc: Global, question: &str, _row: u64) -> Option<String> {
        let (kind, words) = question.split_once(' ').unwrap_or((question, ""));
        match kind {
            "settled" => settled_told(alloc, words),
            "kept" => kept_told(alloc, words),
            "calls" => calls_told(alloc, words),
            "steps" => steps_told(alloc, words),
            "random" => random_told(alloc, words),
            "alike" => alike_told(alloc, words),
            _ => None,
        }
    }
}
