//! A journal that is cut, or of which one byte is another.

use crate::forms::{Asked, records_in};
use crate::rows::listed;
use std::alloc::Global;
use worked_row_files::{fine, some};

/// Answers in a row, those that are alike told once with their number.
#[derive(Drop)]
struct Runs {
    text: String,
    last: String,
    number: u64,
}

impl Runs {
    fn new(alloc: Global) -> Runs {
        Runs {
            text: String::new(alloc),
            last: String::new(alloc),
            number: 0,
        }
    }

    fn push(&mut self, alloc: Global, answer: String) -> Option<()> {
        if self.number != 0 && self.last.as_str() != answer.as_str() {
            some!(self.close(alloc));
        }
        self.number = self.number.saturating_add(1);
        self.last = answer;
        Some(())
    }

    /// Tells the answer that came last.
    fn close(&mut self, alloc: Global) -> Option<()> {
        if !self.text.as_str().is_empty() {
            fine!(self.text.push_str(" "));
        }
        let (last, number) = (self.last.as_str(), self.number);
        let told = fine!(format!(in alloc; "{last}*{number}"));
        fine!(self.text.push_str(told.as_str()));
        self.number = 0;
        Some(())
    }
}

/// What each front of the journal stands for.
pub fn cut(alloc: Global, asked: &Asked, journal: &[u8]) -> Option<String> {
    let mut runs = Runs::new(alloc);
    for number in 0..journal.len() {
        let front = some!(journal.get(..number));
        some!(runs.push(alloc, some!(stands_for(alloc, asked, front))));
    }
    some!(runs.push(alloc, some!(stands_for(alloc, asked, journal))));
    some!(runs.close(alloc));
    Some(runs.text)
}

/// What the journal stands for with each byte at a place.
pub fn changed(alloc: Global, asked: &Asked, journal: Vec<u8>, at: usize) -> Option<String> {
    let mut journal = journal;
    let mut runs = Runs::new(alloc);
    for byte in 0..=255u8 {
        if at >= journal.len() {
            return None;
        }
        journal[at] = byte;
        some!(runs.push(alloc, some!(stands_for(alloc, asked, journal.as_slice()))));
    }
    some!(runs.close(alloc));
    Some(runs.text)
}

/// The records, or the name of the fault.
fn stands_for(alloc: Global, asked: &Asked, journal: &[u8]) -> Option<String> {
    match records_in(alloc, asked, journal) {
        Ok(found) => {
            let records = some!(listed(alloc, found.as_slice()));
            format!(in alloc; "[{records}]").ok()
        }
        Err(fault) => format!(in alloc; "{fault}").ok(),
    }
}
