//! C texts with known answers, through the commands `check` and `interpret`, and those that end as programs of RTL and as linked programs
//! too, once of the baselines and once of the optimisers' offers. `vectors.txt` was made by an independent reading of the
//! language, the answers in `gcc.txt`, `statements.txt` (`do`, compound assignment, `++` and `--`), `examples.txt` and
//! `drawn.txt`, whose programs were drawn by chance, are those of a C compiler, and `rows.txt` was written by hand.
//! `links.txt` links the baselines of two programs of known answers, and has a row for each refusal to link.

use crate::joined::Links;
use crate::linked::linked;
use crate::told::{Told, told_of};
use crate::translated::translated;
use c_checker_rules::CProgram;
use c_texts::accept;
use chains_made::Maker;
use rand_pcg::Pcg32;
use std::alloc::{AllocError, Global};
use std::{fs, io};
use worked_row_files::{Form, Row, done, row_of};

/// How many offers were linked, and how many of them are the optimisers'.
#[derive(Clone, Copy)]
struct Tally {
    offers: u64,
    proposals: u64,
}

/// Tells of the C texts and the linked programs.
pub fn tell_programs(rt: &HostRuntime) -> io::Result<()> {
    done!(compare(rt, "vectors.txt", Form::Hex));
    done!(compare(rt, "gcc.txt", Form::Plain));
    done!(compare(rt, "statements.txt", Form::Plain));
    done!(compare(rt, "examples.txt", Form::Hex));
    done!(compare(rt, "drawn.txt", Form::Plain));
    done!(compare(rt, "rows.txt", Form::Plain));
    worked_row_files::compare(rt, "links.txt", &mut Links)
}

/// Whether what is told of a text is what its line says.
fn is_told(told: &Told, row: &Row) -> bool {
    told.output == row.output && told.closing == row.closing
}

/// A line, empty where memory did not allow it.
fn line_or_none(alloc: Global, line: Result<String, AllocError>) -> String {
    match line {
        Ok(line) => line,
        Err(_fault) => String::new(alloc),
    }
}

/// What is told, where it is not what its row says.
fn told_apart(alloc: Global, row: &Row, kind: &str, told: &Told) -> Option<String> {
    if is_told(told, row) {
        return None;
    }
    Some(line_or_none(alloc, format!(in alloc; "{kind}: {}", told.closing)))
}

/// The same of what was told by a program of this kind, if memory allowed it.
fn told_otherwise(
    alloc: Global,
    row: &Row,
    kind: &str,
    told: Result<Told, AllocError>,
) -> Option<String> {
    match told {
        Ok(told) => told_apart(alloc, row, kind, &told),
        Err(_fault) => Some(String::new(alloc)),
    }
}

/// What the program that is linked of the optimisers' offers prints, and how its run stands. They draw their choices from
/// the seed. Four offers of each function are counted.
fn chained(
    alloc: Global,
    program: &CProgram,
    seed: u64,
    tally: &mut Tally,
) -> Result<Told, AllocError> {
    let mut maker = Maker::optimisers(Pcg32::new(seed, 0));
    let told = linked(alloc, program, &mut maker);
    let offers = (program.functions().len() as u64).saturating_mul(4);
    tally.offers = tally.offers.saturating_add(offers);
    tally.proposals = tally.proposals.saturating_add(maker.proposals);
    told
}

/// The same of a text's program in RTL, linked of the baselines, and linked of the optimisers' offers: the first that differs.
fn program_difference(
    alloc: Global,
    program: &CProgram,
    row: &Row,
    seed: u64,
    tally: &mut Tally,
) -> Option<String> {
    let simplest = linked(alloc, program, &mut Maker::baselines());
    let first = told_otherwise(alloc, row, "translated", translated(alloc, program));
    let second = told_otherwise(alloc, row, "linked", simplest);
    let third = told_otherwise(alloc, row, "chained", chained(alloc, program, seed, tally));
    first.or(second).or(third)
}

/// What is told of the programs of a text, where it is not what its row says.
fn compiled_difference(alloc: Global, row: &Row, seed: u64, tally: &mut Tally) -> Option<String> {
    match accept(alloc, row.text.as_slice()) {
        Ok(program) => program_difference(alloc, &program, row, seed, tally),
        Err(fault) => Some(line_or_none(alloc, format!(in alloc; "{fault}"))),
    }
}

/// What is told of a text where it is not what its row says. Where the program ends, what its RTL program and its linked
/// programs do is compared too.
fn row_difference(alloc: Global, row: &Row, seed: u64, tally: &mut Tally) -> Option<String> {
    let told = told_of(alloc, row.text.as_slice(), row.depth);
    let told = told_otherwise(alloc, row, "told", told);
    if told.is_some() || !row.closing.starts_with("ended") {
        return told;
    }
    compiled_difference(alloc, row, seed, tally)
}

/// The same of a line; one that cannot be read differs.
fn difference(
    alloc: Global,
    form: Form,
    line: &str,
    seed: u64,
    tally: &mut Tally,
) -> Option<String> {
    match row_of(alloc, form, line) {
        Some(row) => row_difference(alloc, &row, seed, tally),
        None => Some(String::new(alloc)),
    }
}

/// Tells how many lines of a text agree, and which do not; and how many offers are the optimisers'.
fn compare_lines(rt: &HostRuntime, name: &str, text: &str, form: Form) -> io::Result<()> {
    let mut all = 0u64;
    let mut agree = 0u64;
    let mut tally = Tally {
        offers: 0,
        proposals: 0,
    };
    for line in text.lines() {
        all = all.saturating_add(1);
        match difference(rt.alloc(), form, line, all, &mut tally) {
            None => agree = agree.saturating_add(1),
            Some(told) => done!(println!(rt; "{name}:{all}: {told}")),
        }
    }
    let Tally { offers, proposals } = tally;
    println!(rt;
        "{name}: {agree} of {all} agree; {proposals} of {offers} offers are the optimisers'"
    )
}

/// The same of a file.
fn compare(rt: &HostRuntime, name: &str, form: Form) -> io::Result<()> {
    let text = done!(fs::read_to_string(rt, name));
    compare_lines(rt, name, text.as_str(), form)
}
