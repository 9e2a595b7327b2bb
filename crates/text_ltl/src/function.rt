//! Functions: a first line, and a line for each block.

ghost use Rattle.lang_base.specs.Texts.{Appends};
ghost use Rattle.text_keys.specs.Lines.{spaced};
ghost use Rattle.text_ltl.specs.Shown.{size_words, shown_named, shown_under};

use crate::block::Line;
use lang_base::{Named, NoMemory};
use lang_helpers::WriteOne;
use ltl::Function;
use text_common::Located;
use text_keys::{Key, end_line, push_count, push_head, push_numbered};

/// How many slots a function has, and where it begins.
fn push_size(out: &mut Vec<u8>, function: &Function) -> Result<(), NoMemory>
    ensures { Appends result (spaced (size_words function.now)) out.old.items out.new.items }
{
    push_count(out, Key::Slots, function.slots())?;
    push_count(out, Key::Entry, function.entry())
}

/// Writes the text of a function under a name.
pub fn push_named(out: &mut Vec<u8>, name: &[u8], function: &Function) -> Result<(), NoMemory>
    ensures { Appends result (shown_under name.now function.now) out.old.items out.new.items }
{
    push_head::<Located>(out, name, function.parameters().as_slice())?;
    push_size(out, function)?;
    end_line(out)?;
    push_numbered::<Line>(out, function.blocks().as_slice())
}

/// The text of a function and its name.
pub(crate) struct Shown;

impl WriteOne for Shown {
    type Item = Named<Function>;

    ghost text = { shown_named };

    fn push(out: &mut Vec<u8>, item: &Named<Function>) -> Result<(), NoMemory> {
        push_named(out, item.name.as_slice(), &item.function)
    }
}
