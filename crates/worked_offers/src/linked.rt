//! Linking: what is linked, and each refusal.

use crate::passes::{function_of, spelled};
use constprop_check::ConstProp;
use lang_base::{Program, Row};
use linker::{ChainOf, LinkError, NamedOf, are_names, link_passes};
use offers::Offer;
use rtl_language::{Function, Rtl};
use std::alloc::Global;
use worked_row_files::{bytes_of, fine, numbered, some};

/// The offers of a function's chain.
type Offers = Vec<Offer<ConstProp>>;

/// A function with what stands beside it.
type Beside<'a> = NamedOf<'a, ConstProp, ConstProp, ConstProp, ConstProp>;

/// A function of a question: its name, its text, the name beside it, and the texts of its offers.
fn parts_of(word: &str) -> Option<(&str, &str, &str, &str)> {
    let (name, rest) = some!(word.split_once(':'));
    let (input, rest) = some!(rest.split_once(':'));
    let (beside, offers) = some!(rest.split_once(':'));
    Some((name, input, beside, offers))
}

/// The program of the functions.
fn program_of(alloc: Global, words: &[&str]) -> Option<Program<Function>> {
    let mut functions = Vec::new(alloc);
    for word in words {
        let (name, input, _beside, _offers) = some!(parts_of(word));
        let bytes = some!(bytes_of(alloc, input));
        let named = lang_base::Named {
            name: Row::from_vec(fine!(name.as_bytes().to_vec(alloc))),
            function: some!(function_of::<Rtl>(alloc, &bytes)),
        };
        fine!(functions.push(named));
    }
    Some(Program {
        globals: Row::from_vec(Vec::new(alloc)),
        functions: Row::from_vec(functions),
    })
}

/// The offers that are written so, with commas between; `-` stands for none.
fn offers_of(alloc: Global, texts: &str) -> Option<Offers> {
    let mut offers = Vec::new(alloc);
    if texts == "-" {
        return Some(offers);
    }
    for text in texts.split(',') {
        let bytes = some!(bytes_of(alloc, text));
        fine!(offers.push(fine!(Offer::read(alloc, &bytes))));
    }
    Some(offers)
}

/// The offers of each function.
fn all_offers(alloc: Global, words: &[&str]) -> Option<Vec<Offers>> {
    let mut all = Vec::new(alloc);
    for word in words {
        let (_name, _input, _beside, texts) = some!(parts_of(word));
        fine!(all.push(some!(offers_of(alloc, texts))));
    }
    Some(all)
}

/// The chain of four offers.
fn chain_of(offers: &Offers) -> Option<ChainOf<'_, ConstProp, ConstProp, ConstProp, ConstProp>> {
    let [first, second, third, fourth] = offers.as_slice() else {
        return None;
    };
    Some(ChainOf {
        first,
        second,
        third,
        fourth,
    })
}

/// The names and chains beside the functions.
fn beside<'a>(alloc: Global, words: &[&'a str], offers: &'a [Offers]) -> Option<Vec<Beside<'a>>> {
    let mut named = Vec::new(alloc);
    for (word, offers) in words.iter().zip(offers) {
        let (_name, _input, beside, _texts) = some!(parts_of(word));
        let name = beside.as_bytes();
        let chain = chain_of(offers);
        fine!(named.push(NamedOf { name, chain }));
    }
    Some(named)
}

/// The number of a refusal, and of the function that it is about.
fn refusal_told(alloc: Global, fault: LinkError) -> Option<String> {
    let number = fault.number();
    match fault.function() {
        None => numbered(alloc, "", u64::from(number)),
        Some(function) => format!(in alloc; "{number} {function}").ok(),
    }
}

/// The names and texts of a program's functions.
fn outputs_told(alloc: Global, program: &Program<Function>) -> Option<String> {
    let mut told = String::new(alloc);
    for named in program.functions.as_slice() {
        let name = fine!(String::from_utf8_lossy(alloc, named.name.as_slice()));
        let bytes = some!(spelled::<Rtl>(alloc, &named.function));
        let text = fine!(hex::encode(alloc, &bytes));
        fine!(write!(told, "{name}:{text};"));
    }
    Some(told)
}

/// What is told of a program with what stands beside its functions.
fn program_told(
    alloc: Global,
    program: &Program<Function>,
    named: &[Beside<'_>],
) -> Option<String> {
    let are_names = are_names(program.functions.as_slice(), named);
    match link_passes::<ConstProp, ConstProp, ConstProp, ConstProp>(alloc, program, named) {
        Ok(made) if are_names => outputs_told(alloc, &made),
        Ok(_made) => None,
        Err(fault) => refusal_told(alloc, fault),
    }
}

/// The names and texts of the last outputs, or why they are not linked. Each function of the question is its name, its
/// text, the name beside it, and the texts of its offers by one pass, with colons between.
pub fn linked_told(alloc: Global, question: &str) -> Option<String> {
    let words: Vec<&str> = fine!(question.split(' ').collect(alloc));
    let program = some!(program_of(alloc, words.as_slice()));
    let offers = some!(all_offers(alloc, words.as_slice()));
    let named = some!(beside(alloc, words.as_slice(), offers.as_slice()));
    program_told(alloc, &program, named.as_slice())
}
