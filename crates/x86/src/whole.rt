//! A whole run.

ghost use Rattle.std.specs.Prelude.{◌≡◌, ℕ, List, [], ◌&&◌, codes, IfOk};
ghost use Rattle.std.specs.Str.{bytes_eq};
ghost use Rattle.lang_running_cells.specs.Frames.{main_number};
ghost use Rattle.x86_state.specs.Shows.{shows};
ghost use Rattle.x86.specs.Meaning.{takes_none, next, blank, begins, stops_at_once, native};
ghost use Rattle.x86.specs.Runs.{state_of, stream_of, shows_of, HasShown};

use crate::drawing::{scramble, scramble_all};
use crate::outcome::Outcome;
use crate::running::{Ran, Running};
use crate::stepping::step;
use lang_base::{Global as Variable, Named, NoMemory, Program};
use lang_running_cells::all_cells;
use std::alloc::Global;
use x86_state::{Cell, Registers, Shown, Stack};
use x86_syntax::{Function, Register};

/// Whether the function is one where a program can begin.
fn is_main(named: &Named<Function>) -> bool
    ensures { result ≡ (bytes_eq named.now.name (codes "main") && takes_none named.now.function) }
{
    named.name.as_slice() == b"main".as_slice() && named.function.parameters == 0
}

/// The number of the function where a program begins, or how many functions there are.
fn find_main(functions: &[Named<Function>]) -> usize
    ensures { result ≡ main_number takes_none functions.now }
{
    for (number, named) in functions.iter().enumerate() {
        if is_main(named) {
            return number;
        }
    }
    functions.len()
}

/// All registers are 0, and there is nothing to go back to.
fn make(alloc: Global, globals: &[Variable], number: usize) -> Result<Running, NoMemory>
    ensures { IfOk result (λ run. (words : List ℕ) → state_of words run ≡ blank globals.now (stream_of words 0) number) }
{
    let mut stack = Stack::new(alloc);
    stack.push(Cell::Back(None))?;
    Ok(Running {
        function: number,
        place: 0,
        registers: Registers::new(),
        flags: None,
        stack,
        globals: all_cells(alloc, globals)?,
        output: Vec::new(alloc),
        drawn: 0,
    })
}

/// The run where the function of this number begins.
fn begin(
    alloc: Global,
    globals: &[Variable],
    junk: &[u32],
    number: usize,
) -> Result<Running, NoMemory>
    ensures { IfOk result (λ run. state_of junk.now run ≡ begins globals.now (stream_of junk.now 0) number) }
{
    let mut run = make(alloc, globals, number)?;
    scramble(&mut run, junk, Register::Eax);
    scramble_all(&mut run, junk);
    Ok(run)
}

/// What is shown where there is no main.
fn stop_at_once(limit: u64) -> Shown
    ensures { stops_at_once limit ≡ record { shown = result; output = [] } }
{
    if limit == 0 {
        Shown::Running
    } else {
        Shown::Wrong
    }
}

/// Goes on for at most so many steps.
fn run_on(
    run: &mut Running,
    functions: &[Named<Function>],
    junk: &[u32],
    room: Option<usize>,
    limit: u64,
) -> Result<Shown, NoMemory>
    ensures { IfOk result (HasShown (shows (next functions.now room) limit (state_of junk.now run.old)) run.new) }
{
    let mut left = limit;
    while left > 0 {
        match step(run, functions, junk, room)? {
            Outcome::Goes => left -= 1,
            Outcome::Ends(word) => return Ok(Shown::Ended(word)),
            Outcome::Stops => return Ok(Shown::Wrong),
            Outcome::Fills => return Ok(Shown::Full),
            Outcome::Stuck => return Ok(Shown::Stuck),
        }
    }
    Ok(Shown::Running)
}

/// Runs a program for at most so many steps. What is left open is drawn from these words, over and over; the stack has room for so many
/// cells, or for any number.
pub fn run(
    alloc: Global,
    program: &Program<Function>,
    junk: &[u32],
    room: Option<usize>,
    limit: u64,
) -> Result<Ran, NoMemory>
    ensures { IfOk result (λ ran. shows_of ran ≡ native program.now (stream_of junk.now 0) room limit) }
{
    let functions = program.functions.as_slice();
    let number = find_main(functions);
    if number >= functions.len() {
        return Ok(Ran {
            shown: stop_at_once(limit),
            output: Vec::new(alloc),
        });
    }
    let mut run = begin(alloc, program.globals.as_slice(), junk, number)?;
    let shown = run_on(&mut run, functions, junk, room, limit)?;
    Ok(Ran {
        shown,
        output: run.output,
    })
}
