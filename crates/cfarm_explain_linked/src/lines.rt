//! The lines of a fault.

ghost use Rattle.std.specs.Prelude.{◌≡◌, slice_get, take};
ghost use Rattle.lang_base.specs.Texts.{Appends};
ghost use Rattle.cfarm_explain_linked.specs.Lines.{line_number, function_name, place_text, named_place, cause_line, instruction_or_none, line_at, call_text, calls_text};
ghost use Rattle.cfarm_explain_linked.specs.Lines.{told_calls, untold_text, more_text, stack_text, stack_of, fault_text};

use crate::causes::push_cause;
use lang_base::{Global as Variable, Named, NoMemory, Program};
use linear_faults::{Cause, Fault, Site};
use linear_language::{Function, Instruction};
use text_keys::{push_bytes, push_number};
use text_linear::push_instruction;

/// How many calls are told at most.
const TOLD: usize = 16;

/// Writes which line of its function an instruction is.
fn push_line_number(out: &mut Vec<u8>, place: usize) -> Result<(), NoMemory>
    ensures { Appends result (line_number place) out.old.items out.new.items }
{
    match (place as u64).checked_add(1) {
        Some(line) => push_number(out, line),
        None => Err(NoMemory),
    }
}

/// The name of a function: empty where there is none of this number.
fn function_name(functions: &[Named<Function>], number: usize) -> &[u8]
    ensures { result.now ≡ function_name functions.now number }
{
    match functions.get(number) {
        None => &[],
        Some(named) => named.name.as_slice(),
    }
}

fn push_place(out: &mut Vec<u8>, name: &[u8], place: usize) -> Result<(), NoMemory>
    ensures { Appends result (place_text name.now place) out.old.items out.new.items }
{
    push_bytes(out, b":")?;
    push_bytes(out, name)?;
    push_bytes(out, b":")?;
    push_line_number(out, place)
}

/// Writes the place of an instruction, where its function is there.
fn push_named_place(
    out: &mut Vec<u8>,
    functions: &[Named<Function>],
    at: Site,
) -> Result<(), NoMemory>
    ensures { Appends result (named_place at.place (slice_get functions.now at.function)) out.old.items out.new.items }
{
    match functions.get(at.function) {
        None => Ok(()),
        Some(named) => push_place(out, named.name.as_slice(), at.place),
    }
}

/// Writes a place and its cause.
fn push_cause_line(
    out: &mut Vec<u8>,
    path: &[u8],
    globals: &[Variable],
    functions: &[Named<Function>],
    at: Site,
    cause: Cause,
) -> Result<(), NoMemory>
    ensures { Appends result (cause_line path.now globals.now functions.now at cause) out.old.items out.new.items }
{
    push_bytes(out, path)?;
    push_named_place(out, functions, at)?;
    push_bytes(out, b": error: ")?;
    push_cause(out, globals, functions, cause)?;
    push_bytes(out, b"\n")
}

fn push_instruction_at(
    out: &mut Vec<u8>,
    code: &[Instruction],
    place: usize,
) -> Result<(), NoMemory>
    ensures { Appends result (instruction_or_none (slice_get code.now place)) out.old.items out.new.items }
{
    match code.get(place) {
        None => Ok(()),
        Some(instruction) => push_instruction(out, instruction),
    }
}

/// Writes the instruction as `show` does, if there is one.
fn push_line_at(out: &mut Vec<u8>, functions: &[Named<Function>], at: Site) -> Result<(), NoMemory>
    ensures { Appends result (line_at at.place (slice_get functions.now at.function)) out.old.items out.new.items }
{
    match functions.get(at.function) {
        None => Ok(()),
        Some(named) => push_instruction_at(out, named.function.code().as_slice(), at.place),
    }
}

/// Writes a call that is under way.
fn push_call(out: &mut Vec<u8>, functions: &[Named<Function>], call: &Site) -> Result<(), NoMemory>
    ensures { Appends result (call_text functions.now call.now) out.old.items out.new.items }
{
    push_bytes(out, b", called at ")?;
    push_line_number(out, call.place)?;
    push_bytes(out, b", in ")?;
    push_bytes(out, function_name(functions, call.function))
}

fn push_calls(
    out: &mut Vec<u8>,
    functions: &[Named<Function>],
    calls: &[Site],
) -> Result<(), NoMemory>
    ensures { Appends result (calls_text functions.now calls.now) out.old.items out.new.items }
{
    for call in calls {
        push_call(out, functions, call)?;
    }
    Ok(())
}

/// Writes how many calls are not told.
fn push_untold(out: &mut Vec<u8>, number: usize) -> Result<(), NoMemory>
    ensures { Appends result (untold_text number) out.old.items out.new.items }
{
    push_bytes(out, b", and ")?;
    push_number(out, number as u64)?;
    push_bytes(out, b" calls more")
}

/// Writes it where there are so many that some are not told.
fn push_more(out: &mut Vec<u8>, count: usize) -> Result<(), NoMemory>
    ensures { Appends result (more_text count) out.old.items out.new.items }
{
    if TOLD < count {
        push_untold(out, count - TOLD)
    } else {
        Ok(())
    }
}

/// The first of some calls, as many as are told.
fn told_calls(calls: &[Site]) -> &[Site]
    ensures { result.now ≡ take told_calls calls.now }
{
    if TOLD < calls.len() {
        &calls[..TOLD]
    } else {
        calls
    }
}

/// Writes the function that runs, of this name, and the calls that are under way.
fn push_stack(
    out: &mut Vec<u8>,
    functions: &[Named<Function>],
    calls: &[Site],
    name: &[u8],
) -> Result<(), NoMemory>
    ensures { Appends result (stack_text functions.now calls.now name.now) out.old.items out.new.items }
{
    push_bytes(out, b"in ")?;
    push_bytes(out, name)?;
    push_calls(out, functions, told_calls(calls))?;
    push_more(out, calls.len())?;
    push_bytes(out, b"\n")
}

fn push_stack_line(
    out: &mut Vec<u8>,
    functions: &[Named<Function>],
    calls: &[Site],
    number: usize,
) -> Result<(), NoMemory>
    ensures { Appends result (stack_of functions.now calls.now number) out.old.items out.new.items }
{
    match functions.get(number) {
        None => Ok(()),
        Some(named) => push_stack(out, functions, calls, named.name.as_slice()),
    }
}

/// Writes the lines of a fault.
pub(crate) fn push_fault(
    out: &mut Vec<u8>,
    path: &[u8],
    program: &Program<Function>,
    fault: &Fault,
) -> Result<(), NoMemory>
    ensures { Appends result (fault_text path.now program.now fault.now) out.old.items out.new.items }
{
    let functions = program.functions.as_slice();
    let at = fault.at;
    push_cause_line(
        out,
        path,
        program.globals.as_slice(),
        functions,
        at,
        fault.cause,
    )?;
    push_line_at(out, functions, at)?;
    push_stack_line(out, functions, fault.calls.as_slice(), at.function)
}
