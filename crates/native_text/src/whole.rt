//! The whole text.

ghost use Rattle.std.specs.List.{flat_map};
ghost use Rattle.lang_base.specs.Texts.{Appends};
ghost use Rattle.native_text.specs.Lines.{lines};
ghost use Rattle.native_text_doors.specs.Doors.{door_text};
ghost use Rattle.native_text.specs.Doorways.{prefix_in};
ghost use Rattle.native_text.specs.Whole.{function_text, functions_text, doors_text, routines_text, native_text, variable_text};

use crate::data::Variable;
use crate::doorways::Doorways;
use crate::here::Here;
use crate::lines::push_lines;
use lang_base::{Named, NoMemory, Program};
use native_text_doors::{
    push_data, push_door, push_ends, push_enter, push_flush, push_labelled, push_main_door,
    push_note, push_put,
};
use text_keys::push_numbered;
use x86_syntax::{Function, Instruction};

fn push_code(out: &mut Vec<u8>, here: &Here<'_>, code: &[Instruction]) -> Result<(), NoMemory>
    ensures { Appends result (flat_map (lines here.now) code.now) out.old.items out.new.items }
{
    for instruction in code {
        push_lines(out, here, *instruction)?;
    }
    Ok(())
}

fn push_function(
    out: &mut Vec<u8>,
    here: &Here<'_>,
    named: &Named<Function>,
) -> Result<(), NoMemory>
    ensures { Appends result (function_text here.now named.now) out.old.items out.new.items }
{
    push_labelled(out, b"f.", named.name.as_slice())?;
    push_code(out, here, named.function.code.as_slice())
}

fn push_functions(out: &mut Vec<u8>, functions: &[Named<Function>]) -> Result<(), NoMemory>
    ensures { Appends result (functions_text functions.now functions.now) out.old.items out.new.items }
{
    for (number, named) in functions.iter().enumerate() {
        push_function(out, &Here { functions, number }, named)?;
    }
    Ok(())
}

fn push_each_door(
    out: &mut Vec<u8>,
    prefix: &[u8],
    functions: &[Named<Function>],
) -> Result<(), NoMemory>
    ensures { Appends result (flat_map (door_text prefix.now) functions.now) out.old.items out.new.items }
{
    for named in functions {
        push_door(out, prefix, named)?;
    }
    Ok(())
}

fn push_doors(
    out: &mut Vec<u8>,
    functions: &[Named<Function>],
    doorways: &Doorways<'_>,
) -> Result<(), NoMemory>
    ensures { Appends result (doors_text functions.now (prefix_in doorways.now)) out.old.items out.new.items }
{
    match *doorways {
        Doorways::Main => push_main_door(out, functions),
        Doorways::Exported(prefix) => push_each_door(out, prefix, functions),
    }
}

fn push_routines(out: &mut Vec<u8>) -> Result<(), NoMemory>
    ensures { Appends result routines_text out.old.items out.new.items }
{
    push_enter(out)?;
    push_put(out)?;
    push_flush(out)?;
    push_ends(out)?;
    push_data(out)
}

/// Writes the text of a program: with main, or with a doorway of each function under a prefix. The same program and prefix give the same
/// text, by the byte. The time is linear in the program and in the text.
pub fn push_native(
    out: &mut Vec<u8>,
    program: &Program<Function>,
    doorways: &Doorways<'_>,
) -> Result<(), NoMemory>
    ensures { Appends result (native_text program.now (prefix_in doorways.now)) out.old.items out.new.items }
{
    let functions = program.functions.as_slice();
    push_doors(out, functions, doorways)?;
    push_functions(out, functions)?;
    push_routines(out)?;
    push_numbered::<Variable>(out, program.globals.as_slice())?;
    push_note(out)
}
