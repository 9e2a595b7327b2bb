//! Rows of questions with known answers.

use crate::done;
use std::alloc::Global;
use std::{fs, io};

/// What answers the questions of a file.
pub trait Answers {
    /// The answer to a question, or none where it is no question. The rows are numbered from 1.
    fn answer(&mut self, alloc: Global, question: &str, row: u64) -> Option<String>;
}

/// The question of a row, and its answer.
fn parts_of_row(line: &str) -> (&str, &str) {
    line.rsplit_once(" =>").unwrap_or((line, ""))
}

/// The question of a line; none where it is a remark, which begins with `#`.
pub fn question_of(line: &str) -> Option<&str> {
    if line.starts_with('#') {
        return None;
    }
    let (question, _said) = parts_of_row(line);
    Some(question)
}

/// Whether a row is answered as it says. Where it is not, it is told with the answer.
fn agrees(
    rt: &HostRuntime,
    name: &str,
    line: &str,
    row: u64,
    told: Option<String>,
) -> io::Result<bool> {
    let (_question, said) = parts_of_row(line);
    let answer = match &told {
        Some(told) => told.as_str(),
        None => "no answer",
    };
    if answer == said.trim_start() {
        return Ok(true);
    }
    done!(println!(rt; "{name}:{row}: {line}, not {answer}"));
    Ok(false)
}

/// How many rows a file has so far, and how many of them are answered as they say.
#[derive(Clone, Copy)]
pub struct Count {
    all: u64,
    agree: u64,
}

impl Count {
    /// No row.
    pub fn none() -> Count {
        Count { all: 0, agree: 0 }
    }

    /// The number of the next row; the first has 1.
    pub fn next(self) -> u64 {
        self.all.saturating_add(1)
    }

    /// Counts the row of a line with the answer to its question. Where that is not what the row says, both are told.
    pub fn add(
        &mut self,
        rt: &HostRuntime,
        name: &str,
        line: &str,
        told: Option<String>,
    ) -> io::Result<()> {
        self.all = self.next();
        if done!(agrees(rt, name, line, self.all, told)) {
            self.agree = self.agree.saturating_add(1);
        }
        Ok(())
    }

    /// Tells how many rows of a file are answered as they say.
    pub fn tell(self, rt: &HostRuntime, name: &str) -> io::Result<()> {
        let Count { all, agree } = self;
        println!(rt; "{name}: {agree} of {all} agree")
    }
}

/// Tells how many rows of a text are answered as they say, and which are not.
fn compare_lines<A: Answers>(
    rt: &HostRuntime,
    name: &str,
    text: &str,
    answers: &mut A,
) -> io::Result<()> {
    let mut count = Count::none();
    for line in text.lines() {
        if let Some(question) = question_of(line) {
            let told = answers.answer(rt.alloc(), question, count.next());
            done!(count.add(rt, name, line, told));
        }
    }
    count.tell(rt, name)
}

/// The same of a file. A row is a line `QUESTION => ANSWER`; a line that begins with `#` is a remark.
pub fn compare<A: Answers>(rt: &HostRuntime, name: &str, answers: &mut A) -> io::Result<()> {
    let text = done!(fs::read_to_string(rt, name));
    compare_lines(rt, name, text.as_str(), answers)
}

/// A word and a number behind it.
pub fn numbered(alloc: Global, word: &str, number: u64) -> Option<String> {
    format!(in alloc; "{word}{number}").ok()
}

/// A text on the heap.
pub fn owned(alloc: Global, text: &str) -> Option<String> {
    text.to_string(alloc).ok()
}
