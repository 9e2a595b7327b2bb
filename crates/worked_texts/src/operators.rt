//! What operators and conditions give.

use ints::{Cond, Op, eval_c, eval_cond, eval_m};
use std::alloc::Global;
use worked_row_files::{fine, numbered, owned, some};

/// A code and two words.
fn words_of(words: &str) -> Option<(u8, [u32; 2])> {
    let (code, words) = some!(words.split_once(' '));
    let (x, y) = some!(words.split_once(' '));
    Some((fine!(code.parse()), [fine!(x.parse()), fine!(y.parse())]))
}

/// The machine's answer, and whether C has one, which is then the same.
pub fn operator_told(alloc: Global, words: &str) -> Option<String> {
    let (code, words) = some!(words_of(words));
    let op = some!(Op::from_code(code));
    let args = &words[..op.argument_count()];
    let machine = eval_m(op, args);
    let c = eval_c(op, args).ok();
    if op.code() != code || c.is_some() && c != machine {
        return None;
    }
    match (machine, c) {
        (Some(word), Some(_word)) => numbered(alloc, "both ", u64::from(word)),
        (Some(word), None) => numbered(alloc, "machine ", u64::from(word)),
        _ => owned(alloc, "none"),
    }
}

/// Whether the condition holds.
pub fn condition_told(alloc: Global, words: &str) -> Option<String> {
    let (code, words) = some!(words_of(words));
    let cond = some!(Cond::from_code(code));
    if cond.code() != code {
        return None;
    }
    let holds = eval_cond(cond, &words[..cond.argument_count()]);
    owned(alloc, if holds { "yes" } else { "no" })
}

/// Whether an operator and a condition have the code.
pub fn code_told(alloc: Global, code: &str) -> Option<String> {
    let code = fine!(code.parse());
    let told = match (Op::from_code(code), Cond::from_code(code)) {
        (Some(_), Some(_)) => "both",
        (Some(_), None) => "operator",
        (None, Some(_)) => "condition",
        (None, None) => "none",
    };
    owned(alloc, told)
}
