//! Whole programs.

ghost use Rattle.std.specs.Prelude.{All, ◌++◌};
ghost use Rattle.lang_base.specs.Texts.{Appends};
ghost use Rattle.text_common.specs.Programs.{shown_rest};

use crate::global::push_globals;
use lang_base::{Global, NoMemory};
use lang_helpers::{WriteOne, push_each};
use text_keys::push_bytes;

/// Writes a title, the globals, and the functions, each by its own writer.
pub fn push_program<W: WriteOne>(
    out: &mut Vec<u8>,
    title: &[u8],
    globals: &[Global],
    functions: &[W::Item],
) -> Result<(), NoMemory>
    requires { All W.is_short functions.now }
    ensures { Appends result (title.now ++ shown_rest W.text globals.now functions.now) out.old.items out.new.items }
{
    push_bytes(out, title)?;
    push_globals(out, globals)?;
    push_each::<W>(out, functions)
}
