//! Where a run begins.

ghost use Rattle.std.specs.Prelude.{◌≡◌, ◌&&◌, codes, IfOk, [], slice_get};
ghost use Rattle.std.specs.Str.{bytes_eq};
ghost use Rattle.machine.specs.Frames.{main_number};
ghost use Rattle.linear_language.specs.Meaning.{slots_of, start, takes_none};
ghost use Rattle.linear_faults_run.specs.Standing.{state_of};

use lang_base::{Named, NoMemory, Program};
use lang_running_cells::all_cells;
use linear_faults_run::{Callers, Run, fresh};
use linear_language::Function;
use std::alloc::Global;

/// Whether a program can begin with the function.
fn is_main(named: &Named<Function>) -> bool
    ensures { result ≡ (bytes_eq named.now.name (codes "main") && takes_none named.now.function) }
{
    named.name.as_slice() == b"main".as_slice() && named.function.parameters().is_empty()
}

/// The number of the function where a program begins, or how many functions there are.
fn find_main(functions: &[Named<Function>]) -> usize
    ensures { result ≡ main_number takes_none functions.now }
{
    for (number, named) in functions.iter().enumerate() {
        if is_main(named) {
            return number;
        }
    }
    functions.len()
}

/// How many slots the function of this number has, if it is there.
fn slots_of(functions: &[Named<Function>], number: usize) -> u16
    ensures { result ≡ slots_of (slice_get functions.now number) }
{
    match functions.get(number) {
        None => 0,
        Some(named) => named.function.slots(),
    }
}

/// The run where `main` begins; its first step goes wrong where there is none.
pub(crate) fn begin(alloc: Global, program: &Program<Function>) -> Result<Run, NoMemory>
    ensures { IfOk result (λ run. state_of run [] ≡ start program.now) }
{
    let functions = program.functions.as_slice();
    let function = find_main(functions);
    let words = fresh(alloc, slots_of(functions, function))?;
    let globals = all_cells(alloc, program.globals.as_slice())?;
    Ok(Run {
        function,
        place: 0,
        words,
        globals,
        callers: Callers::new(alloc),
    })
}
