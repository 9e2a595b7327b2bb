//! C texts, and what the lexer and the readers make of them, and operators at the edges. Tells how many rows of each file are answered as they say, and which are not.
//!
//! | Question | Answer |
//! |---|---|
//! | `tokens TEXT` | each token with its offsets, or the number, the name and the place of the fault |
//! | `expression TEXT` | the expression that is read, with braces that show the tree, and how many tokens are left, or the fault |
//! | `height TEXT` | `read` or the fault likewise |
//! | `block TEXT` | how many statements the block has, and how many tokens are left |
//! | `else TEXT` | `inner`, where the block begins with an `if` whose branch is an `if` with an `else` |
//! | `declaration TEXT` | `global` or `other`, and how many tokens are left |
//! | `unit TEXT` | how many declarations the text has, and its end |
//! | `in_range TEXT` | `yes`, where what the text is lowered to has a spelling |
//! | `operator CODE X Y` | the machine's answer, and whether C has one, which is then the same |
//! | `condition CODE X Y` | whether it holds |
//! | `code CODE` | whether there is such an operator, and such a condition |
//!
//! A text that begins with `%` is in hex. One that begins with `@` is `COUNT|FRONT|PIECE|MIDDLE|END`: so many pieces
//! behind the front, the middle, and as many ends.

use crate::operators::{code_told, condition_told, operator_told};
use crate::ranges::in_range;
use crate::texts::text_of;
use crate::tokens::text_told;
use std::alloc::Global;
use std::io;
use worked_row_files::{Answers, compare, done, some};

/// Any question.
#[derive(Drop)]
struct Rows;

impl Answers for Rows {
    fn answer(&mut self, alloc: Global, question: &str, _row: u64) -> Option<String> {
        let (asked, words) = question.split_once(' ').unwrap_or((question, ""));
        match asked {
            "operator" => operator_told(alloc, words),
            "condition" => condition_told(alloc, words),
            "code" => code_told(alloc, words),
            "in_range" => in_range(alloc, &some!(text_of(alloc, words))),
            _ => text_told(alloc, asked, &some!(text_of(alloc, words))),
        }
    }
}

/// Asks for each row of the files that lie beside the program, and tells how many agree.
pub fn tell_texts(rt: &HostRuntime) -> io::Result<()> {
    for name in ["tokens.txt", "trees.txt", "ranges.txt", "operators.txt"] {
        done!(compare(rt, name, &mut Rows));
    }
    Ok(())
}
