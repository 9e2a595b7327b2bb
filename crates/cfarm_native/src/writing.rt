//! The text, made and written.

ghost use Rattle.std.specs.Prelude.{◌≡◌, IfOk, IfErr, OnOk};
ghost use Rattle.native_text.specs.Doorways.{prefix_in};
ghost use Rattle.native_text_header.specs.Header.{header_text};
ghost use Rattle.cfarm_run.specs.ExecTold.{IsExecFault};
ghost use Rattle.cfarm_native.specs.Told.{HasWritten, IsTextOfBytes, IsUnmade, Printed, code_text, text_in};

use crate::reading::read_whole;
use cfarm_output::print_whole;
use cfarm_run::ExecError;
use lang_base::{NoMemory, Program};
use lang_helpers::RunError;
use linear_language::Function;
use native_lowering::lower;
use native_text::{Doorways, push_native};
use native_text_header::push_header;
use std::alloc::Global;
use std::io::Write;

/// What is written of a program.
#[derive(Clone, Copy)]
pub enum Form<'a> {
    /// The assembly text of its native code.
    Code(Doorways<'a>),
    /// The header of C for its functions, each name behind this prefix.
    Header(&'a [u8]),
}

/// The text of a program's native code.
fn code_of(
    alloc: Global,
    program: &Program<Function>,
    doorways: &Doorways<'_>,
) -> Result<Vec<u8>, NoMemory>
    ensures { IfOk result (λ text. text.items ≡ code_text (prefix_in doorways.now) program.now) }
{
    let native = lower(alloc, program)?;
    let mut text = Vec::new(alloc);
    push_native(&mut text, &native, doorways)?;
    Ok(text)
}

/// The header of a program's functions.
fn header_of(alloc: Global, program: &Program<Function>, prefix: &[u8]) -> Result<Vec<u8>, NoMemory>
    ensures { IfOk result (λ text. text.items ≡ header_text prefix.now program.now) }
{
    let mut text = Vec::new(alloc);
    push_header(&mut text, prefix, program)?;
    Ok(text)
}

fn text_of(alloc: Global, program: &Program<Function>, form: &Form<'_>) -> Result<Vec<u8>, NoMemory>
    ensures { IfOk result (λ text. text.items ≡ text_in form.now program.now) }
{
    match *form {
        Form::Code(doorways) => code_of(alloc, program, &doorways),
        Form::Header(prefix) => header_of(alloc, program, prefix),
    }
}

/// What is written, in this form, of the program of Linear that the bytes spell. The same bytes and form give the same text. The time is linear
/// in the bytes and in the text.
pub fn native_of(alloc: Global, bytes: &[u8], form: &Form<'_>) -> Result<Vec<u8>, ExecError>
    ensures made { IfOk result (λ text. IsTextOfBytes bytes.now (text_in form.now) text.items) }
    // Bytes are refused only where they spell no program, as `exec` refuses them.
    ensures refused { IfErr result (λ fault. IsUnmade bytes.now fault) }
{
    let program = read_whole(alloc, bytes)?;
    match text_of(alloc, &program, form) {
        Ok(text) => Ok(text),
        Err(_) => Err(ExecError::Run(RunError::NoMemory)),
    }
}

/// Writes the text, and flushes it.
pub fn native<W: Write>(
    alloc: Global,
    bytes: &[u8],
    form: &Form<'_>,
    out: &mut W,
) -> Result<(), ExecError>
    // The bytes spell a program, and its text was written.
    ensures written { OnOk result (HasWritten bytes.now (text_in form.now) (W.contents out.old) (W.contents out.new)) }
    // Bytes that spell no program print nothing.
    ensures refused { IfErr result (λ fault. IsExecFault bytes.now fault) }
    ensures printed { IfErr result (λ f. Printed bytes.now (text_in form.now) f (W.contents out.old) (W.contents out.new)) }
{
    match native_of(alloc, bytes, form) {
        Ok(text) => match print_whole(out, &text) {
            Ok(()) => Ok(()),
            Err(_) => Err(ExecError::Run(RunError::Write)),
        },
        Err(fault) => Err(fault),
    }
}
