//! Whole programs.

ghost use Rattle.lang_base.specs.Texts.{Appends};
ghost use Rattle.text_linear.specs.Shown.{shown_linear};

use crate::function::Shown;
use lang_base::{NoMemory, Program};
use linear_language::Function;
use text_common::push_program;

/// Writes the text of a program at the end of `out`; where memory runs out, a beginning of it is written.
pub fn push_linear(out: &mut Vec<u8>, program: &Program<Function>) -> Result<(), NoMemory>
    ensures { Appends result (shown_linear program.now) out.old.items out.new.items }
{
    push_program::<Shown>(
        out,
        b"linear\n",
        program.globals.as_slice(),
        program.functions.as_slice(),
    )
}
