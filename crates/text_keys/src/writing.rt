//! Writers of words and lines: each appends the text.

ghost use Rattle.std.specs.Prelude.{◌≡◌, [], ◌∷◌, map};
ghost use Rattle.lang_base.specs.Texts.{Appends};
ghost use Rattle.text_keys.specs.declared.word.Word.TheVariants.{Named, Number};
ghost use Rattle.text_keys.specs.declared.word.Word.{Word as WordData};
ghost use Rattle.text_keys.specs.Lines.{spaced_word, spaced, spaced_each, line_end};
ghost use Rattle.text_keys.specs.Words.{letter_byte, word_text};

use crate::key::{Key, key_text};
use crate::number::push_number;
use crate::word::{Letter, Word};
use lang_base::{NoMemory, push_byte};

/// Writes bytes.
pub fn push_bytes(out: &mut Vec<u8>, bytes: &[u8]) -> Result<(), NoMemory>
    ensures { Appends result bytes.now out.old.items out.new.items }
{
    out.extend_from_slice(bytes)?;
    Ok(())
}

fn letter_byte(letter: Letter) -> u8
    ensures { result ≡ letter_byte letter }
{
    match letter {
        Letter::Register => b'r',
        Letter::Slot => b's',
        Letter::Global => b'g',
        Letter::Function => b'f',
        Letter::Variable => b'v',
    }
}

/// Writes a word.
pub fn push_bare(out: &mut Vec<u8>, word: Word) -> Result<(), NoMemory>
    ensures { Appends result (word_text word) out.old.items out.new.items }
{
    match word {
        Word::Lettered(letter, number) => {
            push_byte(out, letter_byte(letter))?;
            push_number(out, number)
        }
        Word::Number(number) => push_number(out, number),
        Word::Named(key) => push_bytes(out, key_text(key)),
    }
}

/// Writes a blank and a word.
pub fn push_word(out: &mut Vec<u8>, word: Word) -> Result<(), NoMemory>
    ensures { Appends result (spaced_word word) out.old.items out.new.items }
{
    push_byte(out, b' ')?;
    push_bare(out, word)
}

/// Writes a blank and a key.
pub fn push_key(out: &mut Vec<u8>, key: Key) -> Result<(), NoMemory>
    ensures { Appends result (spaced_word (Named key)) out.old.items out.new.items }
{
    push_word(out, Word::Named(key))
}

/// Writes a key and a number, each behind a blank.
pub fn push_count(out: &mut Vec<u8>, key: Key, number: u16) -> Result<(), NoMemory>
    ensures { Appends result (spaced (Named key ∷ Number number ∷ [])) out.old.items out.new.items }
{
    push_key(out, key)?;
    push_word(out, Word::Number(u64::from(number)))
}

/// Ends a line.
pub fn end_line(out: &mut Vec<u8>) -> Result<(), NoMemory>
    ensures { Appends result line_end out.old.items out.new.items }
{
    push_byte(out, b'\n')
}

/// What has a word of its own.
pub trait SpacedWord {
    /// What has it.
    type Item;

    /// Its word.
    ghost word: { Self.Item → WordData };

    /// Its word.
    fn word(item: &Self::Item) -> Word
        ensures { result ≡ word item.now };
}

/// Writes each word behind a blank.
pub fn push_each_word<S: SpacedWord>(out: &mut Vec<u8>, items: &[S::Item]) -> Result<(), NoMemory>
    ensures { Appends result (spaced (map S.word items.now)) out.old.items out.new.items }
{
    push_each_spaced::<S>(out, items)
}

/// The same, item by item.
fn push_each_spaced<S: SpacedWord>(out: &mut Vec<u8>, items: &[S::Item]) -> Result<(), NoMemory>
    ensures { Appends result (spaced_each S.word items.now) out.old.items out.new.items }
{
    for item in items {
        push_word(out, S::word(item))?;
    }
    Ok(())
}
