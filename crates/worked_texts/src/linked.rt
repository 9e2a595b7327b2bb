//! What the linked program of a C program does, compiled by the offers of a maker.

use crate::told::{Told, closing_of, told_with};
use c_checker_rules::CProgram;
use cfarm_run::run;
use chains_made::{Maker, compile};
use lang_base::Program;
use std::alloc::{AllocError, Global};

/// More instructions than any of the programs does.
const LIMIT: u64 = 1_000_000_000;

/// What a Linear program prints, and how its run stands.
pub fn ran(
    alloc: Global,
    program: &Program<linear_language::Function>,
) -> Result<Told, AllocError> {
    let mut output = Vec::new(alloc);
    let shown = run(alloc, program, LIMIT, &mut output);
    told_with(output, closing_of(alloc, shown))
}

/// What the linked program of a C program prints, and how its run stands.
pub fn linked(alloc: Global, program: &CProgram, maker: &mut Maker) -> Result<Told, AllocError> {
    match compile(alloc, program, maker) {
        Ok(made) => ran(alloc, &made),
        Err(fault) => told_with(Vec::new(alloc), format!(in alloc; "{fault}")),
    }
}
