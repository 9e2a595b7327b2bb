//! The numbers of functions and of globals.

ghost use Rattle.lang_base.specs.Reading.{IsRead};
ghost use Rattle.lang_helpers.specs.Limits.{function_number, global};

use lang_base::{FormError, read_byte, read_u16_below};

/// One of the functions that a program may have.
#[tactic(auto, unfolding(crate::specs::Limits::function_number))]
pub fn read_function_number(bytes: &mut &[u8]) -> Result<u8, FormError>
    ensures { IsRead (function_number bytes.old.now) result bytes.new.now }
{
    let number = read_byte(bytes)?;
    if number < 64 {
        Ok(number)
    } else {
        Err(FormError::NotCanonical)
    }
}

/// One of the globals that a program may have.
#[tactic(auto, unfolding(crate::specs::Limits::global))]
pub fn read_global(bytes: &mut &[u8]) -> Result<u16, FormError>
    ensures { IsRead (global bytes.old.now) result bytes.new.now }
{
    read_u16_below(1024, bytes)
}
