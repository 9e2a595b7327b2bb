//! Whole programs.

ghost use Rattle.lang_base.specs.Texts.{Appends};
ghost use Rattle.text_ltl.specs.Shown.{shown_ltl};

use crate::function::Shown;
use lang_base::{NoMemory, Program};
use ltl::Function;
use text_common::push_program;

/// Writes the text of a program at the end of `out`; where memory runs out, a beginning of it is written.
pub fn push_ltl(out: &mut Vec<u8>, program: &Program<Function>) -> Result<(), NoMemory>
    ensures { Appends result (shown_ltl program.now) out.old.items out.new.items }
{
    push_program::<Shown>(
        out,
        b"ltl\n",
        program.globals.as_slice(),
        program.functions.as_slice(),
    )
}
