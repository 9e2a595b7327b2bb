//! What the RTL program of a C program does.

use crate::told::{Told, closing_of, told_with};
use c_checker_rules::CProgram;
use cminor::lower;
use lang_base::Program;
use rtl::run;
use rtl_language::Function;
use rtlgen::translate;
use std::alloc::{AllocError, Global};

/// More nodes than any of the programs does.
const LIMIT: u64 = 100_000_000;

/// What an RTL program prints, and how its run stands.
fn ran(alloc: Global, program: &Program<Function>) -> Result<Told, AllocError> {
    let mut output = Vec::new(alloc);
    let shown = run(alloc, program, LIMIT, &mut output);
    told_with(output, closing_of(alloc, shown))
}

/// The same of what a program of Cminor is translated to.
fn translated_told(
    alloc: Global,
    program: &Program<cminor_language::Function>,
) -> Result<Told, AllocError> {
    match translate(alloc, program) {
        Ok(made) => ran(alloc, &made),
        Err(fault) => told_with(Vec::new(alloc), format!(in alloc; "{fault}")),
    }
}

/// The same of what a C program is lowered and translated to.
pub fn translated(alloc: Global, program: &CProgram) -> Result<Told, AllocError> {
    match lower(alloc, program) {
        Ok(lowered) => translated_told(alloc, &lowered),
        Err(fault) => told_with(Vec::new(alloc), format!(in alloc; "{fault}")),
    }
}
