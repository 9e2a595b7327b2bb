//! Whether what texts are lowered to has a spelling.

use c_checker_rules::CProgram;
use c_texts::accept;
use cminor_program_ranges::lowered_program_fits;
use std::alloc::Global;
use worked_row_files::{fine, owned};

/// Whether what a C program is lowered to has one.
fn fits_told(program: &CProgram) -> &'static str {
    if lowered_program_fits(program) {
        "yes"
    } else {
        "no"
    }
}

/// The same of a text.
pub fn in_range(alloc: Global, text: &[u8]) -> Option<String> {
    let program = fine!(accept(alloc, text));
    owned(alloc, fits_told(&program))
}
