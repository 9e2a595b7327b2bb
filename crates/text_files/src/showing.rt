ghost use Rattle.std.specs.Prelude.{OnOk, IfErr};
ghost use Rattle.text_files.specs.Files.{HasShown, HasNotShown};

use crate::error::ShowError;
use crate::texts::text_of;
use cfarm_output::print_whole;
use std::alloc::Global;
use std::io::Write;

/// Prints the text of the program that the bytes are the written form of, and flushes.
pub fn show<W: Write>(alloc: Global, bytes: &[u8], out: &mut W) -> Result<(), ShowError>
    ensures shown { OnOk result (HasShown bytes.now (W.contents out.old) (W.contents out.new)) }
    // Bytes that are no program print nothing; where the writer fails a beginning of the text was printed.
    ensures refused { IfErr result (λ e. HasNotShown bytes.now e (W.contents out.old) (W.contents out.new)) }
{
    let text = match text_of(alloc, bytes) {
        Ok(text) => text,
        Err(fault) => return Err(ShowError::Form(fault)),
    };
    match print_whole(out, &text) {
        Ok(()) => Ok(()),
        Err(fault) => Err(ShowError::Run(fault)),
    }
}
