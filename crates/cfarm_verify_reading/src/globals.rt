//! Global variables: the zeros at the end of what one begins with are left out.

ghost use Rattle.std.specs.Prelude.{◌≡◌, ◌<◌, ◌≤◌, All, IfOk, length, map, take};
ghost use Rattle.cminor_lowering.specs.Programs.{low_global, without_zeros};

use c_program::GlobalVariable;
use lang_base::{NoMemory, Row};
use std::alloc::Global;

/// How many words stand before the zeros at the end.
fn significant(words: &[u32]) -> usize
    ensures within { result ≤ length words.now }
    ensures front { take result words.now ≡ without_zeros words.now }
{
    let mut count = words.len();
    while count > 0 && words[count - 1] == 0 {
        count -= 1;
    }
    count
}

/// A global variable.
fn lower_global(alloc: Global, global: &GlobalVariable) -> Result<lang_base::Global, NoMemory>
    requires { global.now.cells < 4294967296 }
    ensures { IfOk result (λ g. g ≡ low_global global.now) }
{
    let words = global.first_words.as_slice();
    let first_words = Vec::from_slice(alloc, &words[..significant(words)])?;
    Ok(lang_base::Global {
        cells: global.cells as u32,
        first_words: Row::from_vec(first_words),
    })
}

/// The global variables of a program.
pub(crate) fn lower_globals(
    alloc: Global,
    globals: &[GlobalVariable],
) -> Result<Row<lang_base::Global>, NoMemory>
    requires { All (λ g. g.cells < 4294967296) globals.now }
    ensures { IfOk result (λ gs. gs ≡ map low_global globals.now) }
{
    let mut lowered = Vec::new(alloc);
    for global in globals {
        lowered.push(lower_global(alloc, global)?)?;
    }
    Ok(Row::from_vec(lowered))
}
