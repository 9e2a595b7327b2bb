//! C programs linked by `linker::link` from the baselines of their functions, and each refusal.
//!
//! | Question | Answer |
//! |---|---|
//! | `whole TEXT` | how the run of the program that the baselines link stands, and what it prints |
//! | `without N TEXT` | the same, where no offers stand beside function N: the number of the refusal, and of the function |
//! | `astray N TEXT` | the same, where the offers of function 0 stand beside function N |
//! | `crossed N TEXT` | the same, where the last of the offers beside function N is that of function 0 |
//! | `turned TEXT` | the same, where the names stand in the other order |
//! | `fewer TEXT` | the same, where the last name is left out |
//! | `long COUNT` | the same, without any offers, of a second function of so many statements |
//! | `long_turned COUNT` | the same, where the names stand in the other order |

use crate::linked::ran;
use crate::texts::repeated;
use c_checker_rules::CProgram;
use c_texts::accept;
use chains_made::{Chain, LinkError, Maker, Named, Offers, all_offers, link, translated};
use cminor::lower;
use lang_base::Program;
use std::alloc::Global;
use worked_row_files::{Answers, fine, some};

/// The pieces of a text whose second function has so many statements.
const LONG: &str = "|int main(void){return 0;}void f(void){int x;|x=1;|}|";

/// The names beside the offers.
#[derive(Clone, Copy)]
enum Names {
    InOrder,
    Turned,
    Fewer,
}

/// The offers beside the names.
#[derive(Clone, Copy)]
enum Beside {
    Baselines,
    NoneAt(usize),
    FirstAt(usize),
    CrossedAt(usize),
    Nothing,
}

/// The baselines of all functions of a program, each on the output of the one before it.
fn all_baselines(alloc: Global, program: &CProgram) -> Option<Vec<Offers>> {
    let begun = fine!(translated(alloc, program));
    all_offers(alloc, begun.functions.as_slice(), &mut Maker::baselines()).ok()
}

fn lent(offers: &Offers) -> Chain<'_> {
    Chain {
        first: &offers.constants,
        second: &offers.expressions,
        third: &offers.allocation,
        fourth: &offers.order,
    }
}

/// The offers, and another last one.
fn crossed<'a>(offers: &'a Offers, other: &'a Offers) -> Chain<'a> {
    Chain {
        first: &offers.constants,
        second: &offers.expressions,
        third: &offers.allocation,
        fourth: &other.order,
    }
}

/// The offers that stand beside the function of a number.
fn chain_at(offers: &[Offers], beside: Beside, number: usize) -> Option<Chain<'_>> {
    match beside {
        Beside::Nothing => None,
        Beside::NoneAt(at) if at == number => None,
        Beside::FirstAt(at) if at == number => Some(lent(some!(offers.first()))),
        Beside::CrossedAt(at) if at == number => {
            Some(crossed(some!(offers.get(number)), some!(offers.first())))
        }
        _ => Some(lent(some!(offers.get(number)))),
    }
}

/// The name that stands at a place.
fn name_at(lowered: &Program<cminor_language::Function>, names: Names, number: usize) -> &[u8] {
    let functions = lowered.functions.as_slice();
    let at = match names {
        Names::Turned => functions.len().saturating_sub(1).saturating_sub(number),
        _ => number,
    };
    match functions.get(at) {
        Some(named) => named.name.as_slice(),
        None => b"",
    }
}

/// The names, with what stands beside them.
fn named_of<'a>(
    alloc: Global,
    lowered: &'a Program<cminor_language::Function>,
    offers: &'a [Offers],
    names: Names,
    beside: Beside,
) -> Option<Vec<Named<'a>>> {
    let count = match names {
        Names::Fewer => lowered.functions.len().saturating_sub(1),
        _ => lowered.functions.len(),
    };
    let mut named = Vec::new(alloc);
    for number in 0..count {
        let name = name_at(lowered, names, number);
        let chain = chain_at(offers, beside, number);
        fine!(named.push(Named { name, chain }));
    }
    Some(named)
}

/// The number of a refusal, and of the function that it is about.
fn refusal_told(alloc: Global, fault: LinkError) -> Option<String> {
    let number = fault.number();
    match fault.function() {
        None => format!(in alloc; "{number}").ok(),
        Some(function) => format!(in alloc; "{number} {function}").ok(),
    }
}

/// What a linked program does.
fn run_told(alloc: Global, made: &Program<linear_language::Function>) -> Option<String> {
    let told = fine!(ran(alloc, made));
    let output = fine!(String::from_utf8_lossy(alloc, told.output.as_slice()));
    let closing = told.closing;
    format!(in alloc; "{closing} [{output}]").ok()
}

/// What is told of the program that is linked with these beside its functions.
fn link_told(alloc: Global, program: &CProgram, named: &[Named<'_>]) -> Option<String> {
    match link(alloc, program, named) {
        Ok(made) => run_told(alloc, &made),
        Err(fault) => refusal_told(alloc, fault),
    }
}

/// The same of a program, with its names.
fn program_told(
    alloc: Global,
    program: &CProgram,
    lowered: &Program<cminor_language::Function>,
    names: Names,
    beside: Beside,
) -> Option<String> {
    let offers = match beside {
        Beside::Nothing => Vec::new(alloc),
        _ => some!(all_baselines(alloc, program)),
    };
    let named = some!(named_of(alloc, lowered, offers.as_slice(), names, beside));
    link_told(alloc, program, named.as_slice())
}

/// The same of a text.
fn linked_told(alloc: Global, text: &[u8], names: Names, beside: Beside) -> Option<String> {
    let program = fine!(accept(alloc, text));
    let lowered = fine!(lower(alloc, &program));
    program_told(alloc, &program, &lowered, names, beside)
}

/// What is told of a text with a second function of so many statements, without any offers.
fn long_told(alloc: Global, count: &str, names: Names) -> Option<String> {
    let words = fine!(format!(in alloc; "{count}{LONG}"));
    let text = some!(repeated(alloc, words.as_str()));
    linked_told(alloc, &text, names, Beside::Nothing)
}

/// What is told where this stands beside a function. The words are its number and the text.
fn numbered_told(alloc: Global, kind: &str, words: &str) -> Option<String> {
    let (number, text) = some!(words.split_once(' '));
    let at = fine!(number.parse());
    let beside = match kind {
        "without" => Beside::NoneAt(at),
        "astray" => Beside::FirstAt(at),
        "crossed" => Beside::CrossedAt(at),
        _ => return None,
    };
    linked_told(alloc, text.as_bytes(), Names::InOrder, beside)
}

/// Answers the questions of linking.
#[derive(Drop)]
pub struct Links;

impl Answers for Links {
    fn answer(&mut self, alloc: Global, question: &str, _row: u64) -> Option<String> {
        let (kind, words) = some!(question.split_once(' '));
        let text = words.as_bytes();
        match kind {
            "whole" => linked_told(alloc, text, Names::InOrder, Beside::Baselines),
            "turned" => linked_told(alloc, text, Names::Turned, Beside::Baselines),
            "fewer" => linked_told(alloc, text, Names::Fewer, Beside::Baselines),
            "long" => long_told(alloc, words, Names::InOrder),
            "long_turned" => long_told(alloc, words, Names::Turned),
            _ => numbered_told(alloc, kind, words),
        }
    }
}
