//! Global variables, a line each.
ghost use Rattle.lang_base.specs.Texts.{Appends};
ghost use Rattle.text_keys.specs.Numbered.{numbered_text};
ghost use Rattle.text_common.specs.Programs.{number_word, shown_words, shown_cells, shown_global};

use lang_base::{Global, NoMemory};
use text_keys::{
    SpacedWord, Word, WriteNumbered, end_line, push_bytes, push_each_word, push_number,
    push_numbered,
};

/// A word that a global begins with.
struct FirstWord;

impl SpacedWord for FirstWord {
    type Item = u32;

    ghost word = { number_word };

    fn word(item: &u32) -> Word {
        Word::Number(u64::from(*item))
    }
}

/// What is told of the words that a global begins with: nothing where there are none.
fn push_first_words(out: &mut Vec<u8>, words: &[u32]) -> Result<(), NoMemory>
    ensures { Appends result (shown_words words.now) out.old.items out.new.items }
{
    match words {
        [] => Ok(()),
        [_first, ..] => {
            push_bytes(out, b" =")?;
            push_each_word::<FirstWord>(out, words)
        }
    }
}

/// How many cells a global has, and the words that it begins with.
fn push_cells(out: &mut Vec<u8>, global: &Global) -> Result<(), NoMemory>
    ensures { Appends result (shown_cells global.now) out.old.items out.new.items }
{
    push_number(out, u64::from(global.cells))?;
    push_bytes(out, b"]")?;
    push_first_words(out, global.first_words.as_slice())?;
    end_line(out)
}

/// A global and its number.
struct Line;

impl WriteNumbered for Line {
    type Item = Global;

    ghost text = { shown_global };

    fn push(out: &mut Vec<u8>, number: u64, item: &Global) -> Result<(), NoMemory> {
        push_bytes(out, b"global g")?;
        push_number(out, number)?;
        push_bytes(out, b"[")?;
        push_cells(out, item)
    }
}

/// Writes a line for each global.
pub fn push_globals(out: &mut Vec<u8>, globals: &[Global]) -> Result<(), NoMemory>
    ensures { Appends result (numbered_text shown_global 0 globals.now) out.old.items out.new.items }
{
    push_numbered::<Line>(out, globals)
}
