//! The header's text.

ghost use Rattle.std.specs.Prelude.{◌≡◌};
ghost use Rattle.std.specs.List.{flat_map, list_any};
ghost use Rattle.lang_base.specs.Texts.{Appends};
ghost use Rattle.native_text_header.specs.Header.{gives, guard_line, guard_name, guard_text, header_text, next_parameter, parameters_text, prototype_text, result_text};

use lang_base::{Named, NoMemory, Program};
use linear_language::{Function, Instruction};
use locations::Location;
use text_keys::{end_line, push_bytes};

/// Whether the instruction ends its function with a value.
fn gives(instruction: &Instruction) -> bool
    ensures { result ≡ gives instruction.now }
{
    match instruction {
        Instruction::Return { value } => value.is_some(),
        _ => false,
    }
}

fn gives_value(code: &[Instruction]) -> bool
    ensures { result ≡ list_any gives code.now }
{
    for instruction in code {
        if gives(instruction) {
            return true;
        }
    }
    false
}

fn push_result(out: &mut Vec<u8>, code: &[Instruction]) -> Result<(), NoMemory>
    ensures { Appends result (result_text code.now) out.old.items out.new.items }
{
    if gives_value(code) {
        push_bytes(out, b"unsigned ")
    } else {
        push_bytes(out, b"void ")
    }
}

/// A parameter behind another: each is `unsigned`.
fn push_parameter(out: &mut Vec<u8>, _parameter: &Location) -> Result<(), NoMemory>
    ensures { Appends result (next_parameter _parameter.now) out.old.items out.new.items }
{
    push_bytes(out, b", unsigned")
}

/// Parameters behind the first.
fn push_next(out: &mut Vec<u8>, parameters: &[Location]) -> Result<(), NoMemory>
    ensures { Appends result (flat_map next_parameter parameters.now) out.old.items out.new.items }
{
    for parameter in parameters {
        push_parameter(out, parameter)?;
    }
    Ok(())
}

fn push_parameters(out: &mut Vec<u8>, parameters: &[Location]) -> Result<(), NoMemory>
    ensures { Appends result (parameters_text parameters.now) out.old.items out.new.items }
{
    match parameters {
        [] => push_bytes(out, b"void"),
        [_, others @ ..] => {
            push_bytes(out, b"unsigned")?;
            push_next(out, others)
        }
    }
}

/// A function is declared, under a prefix.
fn push_prototype(out: &mut Vec<u8>, prefix: &[u8], named: &Named<Function>) -> Result<(), NoMemory>
    ensures { Appends result (prototype_text prefix.now named.now) out.old.items out.new.items }
{
    push_result(out, named.function.code().as_slice())?;
    push_bytes(out, prefix)?;
    push_bytes(out, named.name.as_slice())?;
    push_bytes(out, b"(")?;
    push_parameters(out, named.function.parameters().as_slice())?;
    push_bytes(out, b");\n")
}

fn push_prototypes(
    out: &mut Vec<u8>,
    prefix: &[u8],
    functions: &[Named<Function>],
) -> Result<(), NoMemory>
    ensures { Appends result (flat_map (prototype_text prefix.now) functions.now) out.old.items out.new.items }
{
    for named in functions {
        push_prototype(out, prefix, named)?;
    }
    Ok(())
}

/// What tells that the header was read.
fn push_guard_name(out: &mut Vec<u8>, prefix: &[u8]) -> Result<(), NoMemory>
    ensures { Appends result (guard_name prefix.now) out.old.items out.new.items }
{
    push_bytes(out, prefix)?;
    push_bytes(out, b"0_HEADER")
}

fn push_guard_line(out: &mut Vec<u8>, directive: &[u8], prefix: &[u8]) -> Result<(), NoMemory>
    ensures { Appends result (guard_line directive.now prefix.now) out.old.items out.new.items }
{
    push_bytes(out, directive)?;
    push_guard_name(out, prefix)?;
    end_line(out)
}

fn push_guard(out: &mut Vec<u8>, prefix: &[u8]) -> Result<(), NoMemory>
    ensures { Appends result (guard_text prefix.now) out.old.items out.new.items }
{
    push_guard_line(out, b"#ifndef ", prefix)?;
    push_guard_line(out, b"#define ", prefix)
}

/// Writes the header of a program's functions under a prefix. The same program and prefix give the same text, by the byte. The time is linear
/// in the program and in the text.
pub fn push_header(
    out: &mut Vec<u8>,
    prefix: &[u8],
    program: &Program<Function>,
) -> Result<(), NoMemory>
    ensures { Appends result (header_text prefix.now program.now) out.old.items out.new.items }
{
    push_guard(out, prefix)?;
    push_prototypes(out, prefix, program.functions.as_slice())?;
    push_bytes(out, b"#endif\n")
}
