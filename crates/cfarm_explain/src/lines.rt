//! The lines of a fault.

ghost use Rattle.std.specs.Prelude.{◌≡◌, map, take};
ghost use Rattle.lang_base.specs.Texts.{Appends};
ghost use Rattle.c_program.specs.Views.{function_tree};
ghost use Rattle.cfarm_explain.specs.Lines.{place_text, at_text, function_name, in_text, call_text, calls_text, more_text, untold_text, stack_lines, cause_line, told_calls, all_lines};

use crate::causes::push_cause;
use c_faults::{Cause, Fault, Site};
use c_places::{Place, place_of};
use c_program::{Function, GlobalVariable};
use lang_base::NoMemory;
use text_keys::{push_bytes, push_number};

/// How many calls are told at most.
const TOLD: usize = 16;

fn push_place(out: &mut Vec<u8>, place: Place) -> Result<(), NoMemory>
    ensures { Appends result (place_text place) out.old.items out.new.items }
{
    push_number(out, place.line as u64)?;
    push_bytes(out, b":")?;
    push_number(out, place.column as u64)
}

/// Writes where the byte at an offset stands.
fn push_at(out: &mut Vec<u8>, text: &[u8], at: usize) -> Result<(), NoMemory>
    ensures { Appends result (at_text text.now at) out.old.items out.new.items }
{
    push_place(out, place_of(text, at))
}

/// The name of a function: empty where there is none of this number.
fn function_name(functions: &[Function], number: usize) -> &[u8]
    ensures { result.now ≡ function_name (map function_tree functions.now) number }
{
    if number < functions.len() {
        functions[number].name.as_slice()
    } else {
        &[]
    }
}

fn push_in(out: &mut Vec<u8>, functions: &[Function], number: usize) -> Result<(), NoMemory>
    ensures { Appends result (in_text (map function_tree functions.now) number) out.old.items out.new.items }
{
    push_bytes(out, b"in ")?;
    push_bytes(out, function_name(functions, number))
}

/// Writes a call that is under way.
fn push_call(
    out: &mut Vec<u8>,
    functions: &[Function],
    text: &[u8],
    call: &Site,
) -> Result<(), NoMemory>
    ensures { Appends result (call_text (map function_tree functions.now) text.now call.now) out.old.items out.new.items }
{
    push_bytes(out, b", called at ")?;
    push_at(out, text, call.place)?;
    push_bytes(out, b", ")?;
    push_in(out, functions, call.function)
}

fn push_calls(
    out: &mut Vec<u8>,
    functions: &[Function],
    text: &[u8],
    calls: &[Site],
) -> Result<(), NoMemory>
    ensures { Appends result (calls_text (map function_tree functions.now) text.now calls.now) out.old.items out.new.items }
{
    for call in calls {
        push_call(out, functions, text, call)?;
    }
    Ok(())
}

/// Writes how many calls are not told.
fn push_untold(out: &mut Vec<u8>, number: usize) -> Result<(), NoMemory>
    ensures { Appends result (untold_text number) out.old.items out.new.items }
{
    push_bytes(out, b", and ")?;
    push_number(out, number as u64)?;
    push_bytes(out, b" calls more")
}

/// Writes it where there are so many that some are not told.
fn push_more(out: &mut Vec<u8>, count: usize) -> Result<(), NoMemory>
    ensures { Appends result (more_text count) out.old.items out.new.items }
{
    if TOLD < count {
        push_untold(out, count - TOLD)
    } else {
        Ok(())
    }
}

/// The first of some calls, as many as are told.
fn told_calls(calls: &[Site]) -> &[Site]
    ensures { result.now ≡ take told_calls calls.now }
{
    if TOLD < calls.len() {
        &calls[..TOLD]
    } else {
        calls
    }
}

/// Writes the function that runs, and the calls that are under way.
fn push_stack(
    out: &mut Vec<u8>,
    functions: &[Function],
    text: &[u8],
    number: usize,
    callers: &[Site],
) -> Result<(), NoMemory>
    ensures { Appends result (stack_lines functions.now text.now number callers.now) out.old.items out.new.items }
{
    push_in(out, functions, number)?;
    push_calls(out, functions, text, told_calls(callers))?;
    push_more(out, callers.len())
}

/// Writes a place and its cause.
fn push_cause_line(
    out: &mut Vec<u8>,
    path: &[u8],
    text: &[u8],
    globals: &[GlobalVariable],
    at: usize,
    cause: Cause,
) -> Result<(), NoMemory>
    ensures { Appends result (cause_line path.now text.now globals.now at cause) out.old.items out.new.items }
{
    push_bytes(out, path)?;
    push_bytes(out, b":")?;
    push_at(out, text, at)?;
    push_bytes(out, b": error: ")?;
    push_cause(out, globals, text, at, cause)
}

/// Writes the two lines of a fault.
pub fn push_fault(
    out: &mut Vec<u8>,
    path: &[u8],
    text: &[u8],
    globals: &[GlobalVariable],
    functions: &[Function],
    fault: &Fault,
) -> Result<(), NoMemory>
    ensures { Appends result (all_lines path.now text.now globals.now functions.now fault.now) out.old.items out.new.items }
{
    let at = fault.at;
    push_cause_line(out, path, text, globals, at.place, fault.cause)?;
    push_bytes(out, b"\n")?;
    push_stack(out, functions, text, at.function, fault.callers.as_slice())?;
    push_bytes(out, b"\n")
}
