//! Names of functions.

ghost use Rattle.std.specs.Prelude.{◌≡◌, ◌↔◌, IsTrue};
ghost use Rattle.std.specs.List.{list_all};
ghost use Rattle.lang_base.specs.Reading.{Reads, items_of};
ghost use Rattle.c_lexer_lexemes.specs.Bytes.{is_word_byte, begins_with_digit};
ghost use Rattle.c_lexer_lexemes.specs.Lexemes.{IsName};
ghost use Rattle.lang.specs.Reading.{is_word, is_name, name};

use c_lexer_lexemes::{byte_at, is_word_byte, keyword};
use lang_base::{FormError, read_byte};
use lang_helpers::{Byte, read_so_many};
use std::alloc::Global;

fn has_word_bytes(bytes: &[u8]) -> bool
    ensures { result ≡ list_all is_word_byte bytes.now }
{
    bytes.iter().all(|byte| is_word_byte(*byte))
}

/// Letters, digits and underscores, one or more.
fn is_word(bytes: &[u8]) -> bool
    ensures { result ≡ is_word bytes.now }
{
    !bytes.is_empty() && has_word_bytes(bytes)
}

fn begins_with_digit(bytes: &[u8]) -> bool
    ensures { result ≡ begins_with_digit bytes.now }
{
    byte_at(bytes, 0).is_ascii_digit()
}

/// No digit first, and no keyword.
fn passes(bytes: &[u8]) -> bool
    ensures { result ≡ is_name bytes.now }
{
    let word = is_word(bytes);
    let digit = begins_with_digit(bytes);
    let plain = keyword(bytes).is_none();
    word && !digit && plain
}

/// Whether the bytes are a C name: letters, digits and underscores, no digit first, no keyword.
pub fn is_name(bytes: &[u8]) -> bool
    ensures { IsTrue result ↔ IsName bytes.now }
{
    passes(bytes)
}

/// A name behind its length.
#[tactic(auto, unfolding(crate::specs::Reading::name))]
pub fn read_name(alloc: Global, bytes: &mut &[u8]) -> Result<Vec<u8>, FormError>
    ensures { Reads (name bytes.old.now) (items_of result) bytes.new.now }
{
    let count = read_byte(bytes)?;
    let name = read_so_many(alloc, Byte, u32::from(count), bytes)?;
    if passes(&name) {
        Ok(name)
    } else {
        Err(FormError::NotCanonical)
    }
}
