//! Registers and locations.

ghost use Rattle.std.specs.Prelude.{◌≡◌};
ghost use Rattle.lang_base.specs.Texts.{Appends};
ghost use Rattle.text_keys.specs.Lines.{spaced};
ghost use Rattle.text_keys.specs.Words.{target_words};
ghost use Rattle.text_common.specs.Acts.{register_word, location_word};

use lang_base::NoMemory;
use locations::{Location, Register};
use text_keys::{Key, Letter, SpacedWord, Word, push_key, push_word};

/// The word of a register.
pub fn word_of_register(register: Register) -> Word
    ensures { result ≡ register_word register }
{
    Word::Lettered(Letter::Register, u64::from(register))
}

/// The word of a location.
pub fn word_of_location(location: Location) -> Word
    ensures { result ≡ location_word location }
{
    match location {
        Location::InRegister(number) => word_of_register(number),
        Location::InSlot(slot) => Word::Lettered(Letter::Slot, u64::from(slot)),
    }
}

/// A location has a word.
pub struct Located;

impl SpacedWord for Located {
    type Item = Location;

    ghost word = { location_word };

    fn word(item: &Location) -> Word {
        word_of_location(*item)
    }
}

/// Where a result goes, if it goes anywhere.
pub fn push_target(out: &mut Vec<u8>, target: Option<Location>) -> Result<(), NoMemory>
    ensures { Appends result (spaced (target_words location_word target)) out.old.items out.new.items }
{
    match target {
        None => Ok(()),
        Some(location) => {
            push_word(out, word_of_location(location))?;
            push_key(out, Key::Is)
        }
    }
}
