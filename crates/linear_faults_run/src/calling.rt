//! Calls.

ghost use Rattle.std.specs.Prelude.{◌≡◌, ◌+◌, IfOk, OnOk, Some, length};
ghost use Rattle.linear_faults_run.specs.Calls.{CallsSo, Entered};
ghost use Rattle.linear_faults_run.specs.Steps.{Passes, Stays};

use crate::callers::Caller;
use crate::run::Run;
use crate::step::Step;
use crate::words::{Words, fresh, put, value_of};
use lang_base::{Named, NoMemory, Row};
use linear_language::Function;
use locations::Location;
use std::alloc::Global;
use std::mem;

/// The parameters get what the caller's arguments hold.
fn pass(callee: &mut Words, parameters: &[Location], caller: &Words, arguments: &[Location])
    requires { length parameters.now ≡ length arguments.now }
    ensures { Passes callee.old parameters.now arguments.now caller.now callee.new }
{
    for place in 0..parameters.len() {
        let value = value_of(caller, arguments[place]);
        put(callee, parameters[place], value);
    }
}

/// The running function waits, to go on at this place, and the function of this number begins.
fn enter(
    run: &mut Run,
    number: usize,
    words: Words,
    below: usize,
    target: Option<Location>,
) -> Result<(), NoMemory>
    ensures { OnOk result (Entered run.old number words below target run.new) }
{
    let function = run.function;
    let words = mem::replace(&mut run.words, words);
    run.callers.push(Caller {
        function,
        place: below,
        words,
        target,
    })?;
    run.function = number;
    run.place = 0;
    Ok(())
}

/// A call, of which this is the place below it.
pub fn call(
    alloc: Global,
    functions: &[Named<Function>],
    run: &mut Run,
    number: u8,
    arguments: &Row<Location>,
    target: Option<Location>,
    below: usize,
) -> Result<Step, NoMemory>
    requires { below ≡ run.old.place + 1 }
    ensures calls { IfOk result (λ step. CallsSo functions.now number arguments.now target run.old step run.new) }
    ensures stays { IfOk result (λ step. Stays step run.old run.new) }
{
    let Some(named) = functions.get(usize::from(number)) else {
        return Ok(Step::Fails);
    };
    let callee = &named.function;
    if arguments.len() != callee.parameters().len() {
        return Ok(Step::Fails);
    }
    let mut words = fresh(alloc, callee.slots())?;
    pass(
        &mut words,
        callee.parameters().as_slice(),
        &run.words,
        arguments.as_slice(),
    );
    enter(run, usize::from(number), words, below, target)?;
    Ok(Step::Goes)
}
