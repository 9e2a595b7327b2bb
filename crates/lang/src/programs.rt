//! Whole programs. They are `lang`'s, and `IsProgram` says which of them have a spelling.

ghost use Rattle.std.specs.Prelude.{◌≡◌, ◌≢◌, ◌≤◌, ℕ, List, ◌++◌, length, take, codes, OnOk, OnErr, IfOk, IfErr};
ghost use Rattle.std.specs.List.{list_any};
ghost use Rattle.std.specs.Str.{bytes_eq};
ghost use Rattle.lang_base.specs.declared.program.Program.{Program};
ghost use Rattle.lang_base.specs.Texts.{Appends};
ghost use Rattle.lang.specs.Form.{IsProgram, program_text};

use crate::functions::read_functions;
use crate::head::read_head;
use crate::writing::{push_functions, push_head};
use lang_base::{FormError, Language, NoMemory, Program};
use lang_helpers::is_taken;
use std::alloc::Global;

/// Reads the program whose text is a front of the bytes, and says how long that front is. The first
/// fault in byte order is told; a language's reader tells it of a function.
pub fn read_program<L: Language>(
    alloc: Global,
    bytes: &[u8],
) -> Result<(Program<L::Fun>, usize), FormError>
    ensures within { IfOk result (λ found. found.1 ≤ length bytes.now) }
    ensures fits { IfOk result (λ found. IsProgram L.fits found.0) }
    ensures front { IfOk result (λ found. take found.1 bytes.now ≡ program_text L.TAG L.spelling found.0) }
    ensures refused { IfErr result (λ e. e ≢ FormError.NoMemory →
        (p : Program L.Fun) (rest : List ℕ) → IsProgram L.fits p → bytes.now ≡ program_text L.TAG L.spelling p ++ rest → ⊥) }
{
    let mut rest = bytes;
    let (globals, count) = read_head(alloc, L::TAG, &mut rest)?;
    let functions = read_functions::<L>(alloc, count, &mut rest)?;
    let main = b"main".as_slice();
    if !is_taken(functions.as_slice(), main) {
        return Err(FormError::NotCanonical);
    }
    Ok((Program { globals, functions }, bytes.len() - rest.len()))
}

fn push_program<L: Language>(out: &mut Vec<u8>, program: &Program<L::Fun>) -> Result<(), NoMemory>
    requires { IsProgram L.fits program.now }
    ensures { Appends result (program_text L.TAG L.spelling program.now) out.old.items out.new.items }
{
    let functions = program.functions.as_slice();
    push_head(
        out,
        L::TAG,
        program.globals.as_slice(),
        functions.len() as u8,
    )?;
    push_functions::<L>(out, functions)
}

/// Writes a program's text at the end of `out`, which a refusal leaves as it was.
pub fn write_program<L: Language>(
    program: &Program<L::Fun>,
    out: &mut Vec<u8>,
) -> Result<(), NoMemory>
    requires { IsProgram L.fits program.now }
    ensures ok { OnOk result (out.new.items ≡ out.old.items ++ program_text L.TAG L.spelling program.now) }
    ensures err { OnErr result (out.new.items ≡ out.old.items) }
{
    let length = out.len();
    let written = push_program::<L>(out, program);
    if written.is_err() {
        out.truncate(length);
    }
    written
}
