//! The questions.

use crate::forms::{form_told, near, program_told, same};
use crate::heights::{blocks, skips};
use crate::languages::{Kind, kind_of};
use crate::nodes::nodes_told;
use crate::runs::{full, run_told};
use std::alloc::Global;
use worked_row_files::{Answers, bytes_of, some};

/// Any question.
#[derive(Drop)]
pub struct Rows;

/// What is said of functions of the language that is named.
fn told(alloc: Global, asked: &str, words: &str) -> Option<String> {
    let (language, words) = some!(words.split_once(' '));
    let kind = some!(kind_of(language));
    match asked {
        "form" => form_told(alloc, kind, &some!(bytes_of(alloc, words))),
        "near" => near(alloc, kind, some!(bytes_of(alloc, words))),
        "same" => same(alloc, kind, words),
        "program" => program_told(alloc, kind, &some!(bytes_of(alloc, words))),
        _ => None,
    }
}

impl Answers for Rows {
    fn answer(&mut self, alloc: Global, question: &str, _row: u64) -> Option<String> {
        let (asked, words) = some!(question.split_once(' '));
        match asked {
            "blocks" => form_told(alloc, Kind::Cminor, &some!(blocks(alloc, words))),
            "skips" => form_told(alloc, Kind::Cminor, &some!(skips(alloc, words))),
            "run" => run_told(alloc, words),
            "full" => full(alloc, words),
            "nodes" => nodes_told(alloc, words),
            _ => told(alloc, asked, words),
        }
    }
}
