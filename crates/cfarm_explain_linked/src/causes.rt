//! Causes as they are told.

ghost use Rattle.std.specs.Prelude.{slice_get};
ghost use Rattle.lang_base.specs.Texts.{Appends};
ghost use Rattle.cfarm_explain_linked.specs.Causes.{undefined_text, size_text, no_global_text, past_text, label_text, no_function_text, takes_text};
ghost use Rattle.cfarm_explain_linked.specs.Causes.{other_count_text, cause_text};

use cfarm_explain_words::{push_index, push_one, push_two};
use lang_base::{Global as Variable, Named, NoMemory};
use linear_faults::Cause;
use linear_language::Function;
use text_keys::{push_bytes, push_number};

fn push_undefined(out: &mut Vec<u8>, register: u8) -> Result<(), NoMemory>
    ensures { Appends result (undefined_text register) out.old.items out.new.items }
{
    push_bytes(out, b"r")?;
    push_number(out, u64::from(register))?;
    push_bytes(out, b" is used and holds no word")
}

fn push_no_global(out: &mut Vec<u8>, global: u16) -> Result<(), NoMemory>
    ensures { Appends result (no_global_text global) out.old.items out.new.items }
{
    push_bytes(out, b"there is no g")?;
    push_number(out, u64::from(global))
}

fn push_size(out: &mut Vec<u8>, global: u16, index: u32, size: u32) -> Result<(), NoMemory>
    ensures { Appends result (size_text global index size) out.old.items out.new.items }
{
    push_bytes(out, b"index ")?;
    push_index(out, index)?;
    push_bytes(out, b" is not below ")?;
    push_number(out, u64::from(size))?;
    push_bytes(out, b", the size of g")?;
    push_number(out, u64::from(global))
}

/// Writes which index is past a global.
fn push_past(
    out: &mut Vec<u8>,
    globals: &[Variable],
    global: u16,
    index: u32,
) -> Result<(), NoMemory>
    ensures { Appends result (past_text global index (slice_get globals.now global)) out.old.items out.new.items }
{
    match globals.get(usize::from(global)) {
        None => push_no_global(out, global),
        Some(variable) => push_size(out, global, index, variable.cells),
    }
}

fn push_label(out: &mut Vec<u8>, label: u16) -> Result<(), NoMemory>
    ensures { Appends result (label_text label) out.old.items out.new.items }
{
    push_bytes(out, b"label ")?;
    push_number(out, u64::from(label))?;
    push_bytes(out, b" stands nowhere")
}

fn push_no_function(out: &mut Vec<u8>, function: u8) -> Result<(), NoMemory>
    ensures { Appends result (no_function_text function) out.old.items out.new.items }
{
    push_bytes(out, b"there is no f")?;
    push_number(out, u64::from(function))
}

fn push_takes(out: &mut Vec<u8>, function: u8, count: usize, taken: usize) -> Result<(), NoMemory>
    ensures { Appends result (takes_text function count taken) out.old.items out.new.items }
{
    push_bytes(out, b"f")?;
    push_number(out, u64::from(function))?;
    push_bytes(out, b" takes ")?;
    push_number(out, taken as u64)?;
    push_bytes(out, b" arguments, not ")?;
    push_number(out, count as u64)
}

/// Writes how many arguments a function takes, and that it got another number of them.
fn push_arguments(
    out: &mut Vec<u8>,
    functions: &[Named<Function>],
    function: u8,
    count: usize,
) -> Result<(), NoMemory>
    ensures { Appends result (other_count_text functions.now function count) out.old.items out.new.items }
{
    match functions.get(usize::from(function)) {
        None => push_no_function(out, function),
        Some(named) => push_takes(out, function, count, named.function.parameters().len()),
    }
}

/// Writes a cause.
pub(crate) fn push_cause(
    out: &mut Vec<u8>,
    globals: &[Variable],
    functions: &[Named<Function>],
    cause: Cause,
) -> Result<(), NoMemory>
    ensures { Appends result (cause_text globals.now functions.now cause) out.old.items out.new.items }
{
    match cause {
        Cause::Undefined(register) => push_undefined(out, register),
        Cause::One(_, word) => push_one(out, word),
        Cause::Two(op, first, second) => push_two(out, op, first, second),
        Cause::Past(global, index) => push_past(out, globals, global, index),
        Cause::NoLabel(label) => push_label(out, label),
        Cause::NoFunction(function) => push_no_function(out, function),
        Cause::OtherArguments(function, count) => push_arguments(out, functions, function, count),
        Cause::NoInstruction => push_bytes(out, b"the code ends here"),
        Cause::NoResult => push_bytes(out, b"main returns no word"),
        Cause::NoMain => push_bytes(out, b"there is no main"),
    }
}
