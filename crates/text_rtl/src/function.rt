//! Functions: a first line, and a line for each node.

ghost use Rattle.lang_base.specs.Texts.{Appends};
ghost use Rattle.text_keys.specs.Lines.{spaced};
ghost use Rattle.text_rtl.specs.Shown.{size_words, shown_named, shown_under};

use crate::acts::InRegister;
use crate::node::Line;
use lang_base::{Named, NoMemory};
use lang_helpers::WriteOne;
use rtl_language::Function;
use text_keys::{Key, end_line, push_count, push_head, push_numbered};

/// How many registers a function has, and where it begins.
fn push_size(out: &mut Vec<u8>, function: &Function) -> Result<(), NoMemory>
    ensures { Appends result (spaced (size_words function.now)) out.old.items out.new.items }
{
    push_count(out, Key::Registers, function.registers())?;
    push_count(out, Key::Entry, function.entry())
}

/// Writes the text of a function under a name.
pub fn push_named(out: &mut Vec<u8>, name: &[u8], function: &Function) -> Result<(), NoMemory>
    ensures { Appends result (shown_under name.now function.now) out.old.items out.new.items }
{
    push_head::<InRegister>(out, name, function.parameters().as_slice())?;
    push_size(out, function)?;
    end_line(out)?;
    push_numbered::<Line>(out, function.nodes().as_slice())
}

/// The text of a function and its name.
pub(crate) struct Shown;

impl WriteOne for Shown {
    type Item = Named<Function>;

    ghost text = { shown_named };

    fn push(out: &mut Vec<u8>, item: &Named<Function>) -> Result<(), NoMemory> {
        push_named(out, item.name.as_slice(), &item.function)
    }
}
