//! Calls and returns.

ghost use Rattle.std.specs.Prelude.{slice_get, IfOk};
ghost use Rattle.x86.specs.Calling.{calls, returns};
ghost use Rattle.x86.specs.Runs.{Steps, HasNext};

use crate::outcome::Outcome;
use crate::running::Running;
use lang_base::{Named, NoMemory};
use x86_state::{Cell, Spot};
use x86_syntax::{Function, Register};

pub(crate) fn call(
    run: &mut Running,
    functions: &[Named<Function>],
    number: u8,
) -> Result<Outcome, NoMemory>
    requires { HasNext run.old }
    ensures { IfOk result (λ outcome. Steps (calls number (slice_get functions.now number)) run.old outcome run.new) }
{
    let function = usize::from(number);
    if function >= functions.len() {
        return Ok(Outcome::Stuck);
    }
    let back = Spot {
        function: run.function,
        place: run.place + 1,
    };
    run.stack.push(Cell::Back(Some(back)))?;
    run.function = function;
    run.place = 0;
    run.flags = None;
    Ok(Outcome::Goes)
}

pub(crate) fn go_back(run: &mut Running) -> Outcome
    ensures { Steps (λ s. returns s.stack s) run.old result run.new }
{
    match run.stack.pop() {
        Some(Cell::Back(None)) => Outcome::Ends(run.registers.word(Register::Eax)),
        Some(Cell::Back(Some(to))) => {
            run.function = to.function;
            run.place = to.place;
            run.flags = None;
            Outcome::Goes
        }
        _ => Outcome::Stuck,
    }
}
