//! The questions about the offers of a pass.

use crate::changes::near;
use crate::drawing::drawn;
use crate::judging::{judged_and_proposed, judged_baseline};
use crate::kinds::{Kind, name_of};
use crate::linked::linked_told;
use crate::orders::order_answer;
use crate::proposing::{baseline_told, both, varied};
use crate::slots::slots_told;
use std::alloc::Global;
use worked_row_files::{Answers, bytes_of, some};

/// What the questions of a file are about: offers of a pass, slots, orders of nodes, or linking.
#[derive(Clone, Copy)]
pub enum Rows {
    Offers(Kind),
    Slots,
    Orders,
    Linked,
}

/// The name of a written offer.
fn name_told(alloc: Global, kind: Kind, bytes: &[u8]) -> Option<String> {
    let name = some!(name_of(alloc, kind, bytes));
    hex::encode(alloc, &name).ok()
}

/// The answer to a question about bytes.
fn bytes_told(alloc: Global, kind: Kind, asked: &str, bytes: Vec<u8>, row: u64) -> Option<String> {
    match asked {
        "judged" => judged_and_proposed(alloc, kind, &bytes, row),
        "name" => name_told(alloc, kind, &bytes),
        "near" => near(alloc, kind, bytes),
        "baseline" => baseline_told(alloc, kind, &bytes),
        "baseline_judged" => judged_baseline(alloc, kind, &bytes),
        "varied" => varied(alloc, kind, &bytes),
        _ => None,
    }
}

/// The answer to a question about the pass.
fn told(alloc: Global, kind: Kind, question: &str, row: u64) -> Option<String> {
    let (asked, words) = some!(question.split_once(' '));
    match asked {
        "proposed" => both(alloc, kind, words),
        "drawn" => drawn(alloc, kind, words),
        _ => bytes_told(alloc, kind, asked, some!(bytes_of(alloc, words)), row),
    }
}

impl Answers for Rows {
    fn answer(&mut self, alloc: Global, question: &str, row: u64) -> Option<String> {
        match self {
            Rows::Offers(kind) => told(alloc, *kind, question, row),
            Rows::Slots => slots_told(alloc, question),
            Rows::Orders => order_answer(alloc, question, row),
            Rows::Linked => linked_told(alloc, question),
        }
    }
}
