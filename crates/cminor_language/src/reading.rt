//! The reader and the writer of a whole function.

ghost use Rattle.lang_base.specs.Reading.{Reads};
ghost use Rattle.lang_base.specs.Texts.{Appends};
ghost use Rattle.cminor_form.specs.Reading.{parts, function};
ghost use Rattle.cminor_language.specs.Results.{parts_of};
ghost use Rattle.cminor_form.specs.Spelling.{spelling};

use crate::function::Function;
use cminor_codec::{push_statement, read_body, read_frame};
use cminor_syntax::Statement;
use lang_base::{FormError, NoMemory, push_byte, push_u16, read_byte};
use lang_helpers::are_bytes;
use std::alloc::Global;

/// The numbers of parameters and of variables, and the body.
#[tactic(auto, unfolding(cminor_form::specs::Reading::parts))]
fn read_parts(alloc: Global, bytes: &mut &[u8]) -> Result<((u8, u16), Statement), FormError>
    ensures { Reads (parts bytes.old.now) (parts_of result) bytes.new.now }
{
    let frame = read_frame(bytes)?;
    let body = read_body(alloc, frame.1, bytes)?;
    Ok((frame, body))
}

/// A function, its tag first.
#[tactic(auto, unfolding(cminor_form::specs::Reading::function))]
pub fn read_function(alloc: Global, bytes: &mut &[u8]) -> Result<Function, FormError>
    ensures { Reads (function bytes.old.now) result bytes.new.now }
{
    are_bytes(bytes);
    if read_byte(bytes)? != 1 {
        return Err(FormError::BadTag);
    }
    let ((parameters, variables), body) = read_parts(alloc, bytes)?;
    Ok(Function::new(parameters, variables, body))
}

/// A function, its tag first.
pub fn push_function(out: &mut Vec<u8>, function: &Function) -> Result<(), NoMemory>
    ensures { Appends result (spelling function.now) out.old.items out.new.items }
{
    push_byte(out, 1)?;
    push_byte(out, function.parameters())?;
    push_u16(out, function.variables())?;
    push_statement(out, function.body())
}
