//! Whole programs.

ghost use Rattle.lang_base.specs.Texts.{Appends};
ghost use Rattle.text_cminor.specs.Shown.{shown_cminor};

use crate::function::Shown;
use cminor_language::Function;
use lang_base::{NoMemory, Program};
use text_common::push_program;

/// Writes the text of a program at the end of `out`; where memory runs out, a beginning of it is written.
pub fn push_cminor(out: &mut Vec<u8>, program: &Program<Function>) -> Result<(), NoMemory>
    ensures { Appends result (shown_cminor program.now) out.old.items out.new.items }
{
    push_program::<Shown>(
        out,
        b"cminor\n",
        program.globals.as_slice(),
        program.functions.as_slice(),
    )
}
