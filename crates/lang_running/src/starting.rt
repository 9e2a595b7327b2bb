//! Where a run begins.

ghost use Rattle.std.specs.Prelude.{◌≡◌, ◌&&◌, [], codes, IfOk};
ghost use Rattle.std.specs.Str.{bytes_eq};
ghost use Rattle.lang_running_cells.specs.Frames.{main_number};
ghost use Rattle.lang_running.specs.Runs.{state_of, RunFits};

use crate::callers::Callers;
use crate::state::Running;
use crate::stepping::Machine;
use lang_base::{Named, NoMemory, Program};
use lang_running_cells::{Cells, all_cells};
use std::alloc::Global;

/// Whether the function is one where a program can begin.
fn is_main<M: Machine>(named: &Named<M::Function>) -> bool
    ensures { result ≡ (bytes_eq named.now.name (codes "main") && M.takes_none named.now.function) }
{
    named.name.as_slice() == b"main".as_slice() && M::takes_none(&named.function)
}

/// The number of the function where a program begins, or how many functions there are.
fn find_main<M: Machine>(functions: &[Named<M::Function>]) -> usize
    ensures { result ≡ main_number M.takes_none functions.now }
{
    for (number, named) in functions.iter().enumerate() {
        if is_main::<M>(named) {
            return number;
        }
    }
    functions.len()
}

/// The run where `main` begins, and the globals as they begin.
pub(crate) fn begin<M: Machine>(
    alloc: Global,
    program: &Program<M::Function>,
) -> Result<(Running<M::Place, M::Target>, Vec<Cells>), NoMemory>
    ensures state { IfOk result (λ first. state_of M.state first.0 first.1.items [] ≡ M.start program.now) }
    ensures fits { IfOk result (λ first. RunFits M.fits M.can_resume program.now.functions first.0) }
{
    let globals = all_cells(alloc, program.globals.as_slice())?;
    let functions = program.functions.as_slice();
    let function = find_main::<M>(functions);
    let (place, words) = M::begin(alloc, functions, function)?;
    let run = Running {
        function,
        place,
        base: 0,
        words,
        callers: Callers::new(alloc),
    };
    Ok((run, globals))
}
