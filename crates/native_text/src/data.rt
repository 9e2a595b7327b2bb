//! The globals.

ghost use Rattle.std.specs.Prelude.{◌++◌, ◌<◌, ◌^◌, codes, decimal};
ghost use Rattle.lang_base.specs.Texts.{Appends};
ghost use Rattle.native_text_doors.specs.Fixed.{labelled};
ghost use Rattle.native_text.specs.Whole.{word_line, zeros_text, variable_text};

use crate::words::push_signed;
use lang_base::{Global, NoMemory};
use lang_helpers::{WriteOne, push_each};
use text_keys::{WriteNumbered, end_line, push_bytes, push_number};

/// A first word.
struct FirstWord;

impl WriteOne for FirstWord {
    type Item = u32;

    ghost text = { word_line };

    fn push(out: &mut Vec<u8>, item: &u32) -> Result<(), NoMemory> {
        push_bytes(out, b" .long ")?;
        push_signed(out, *item)?;
        end_line(out)
    }
}

fn push_zeros(out: &mut Vec<u8>, cells: u64) -> Result<(), NoMemory>
    requires { cells < 2 ^ 32 }
    ensures { Appends result (zeros_text cells) out.old.items out.new.items }
{
    if cells == 0 {
        return Ok(());
    }
    push_bytes(out, b" .zero ")?;
    push_number(out, 4 * cells)?;
    end_line(out)
}

fn push_name(out: &mut Vec<u8>, number: u64) -> Result<(), NoMemory>
    ensures { Appends result (labelled (codes "g." ++ decimal number)) out.old.items out.new.items }
{
    push_bytes(out, b"g.")?;
    push_number(out, number)?;
    push_bytes(out, b":\n")
}

/// A global.
pub(crate) struct Variable;

impl WriteNumbered for Variable {
    type Item = Global;

    ghost text = { variable_text };

    fn push(out: &mut Vec<u8>, number: u64, item: &Global) -> Result<(), NoMemory> {
        push_name(out, number)?;
        push_each::<FirstWord>(out, item.first_words.as_slice())?;
        let cells = u64::from(item.cells);
        push_zeros(out, cells.saturating_sub(item.first_words.len() as u64))
    }
}
