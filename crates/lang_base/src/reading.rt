//! Readers of the parts that forms are made of. Each goes on behind what it reads; where the bytes
//! stand after a fault is left open.

ghost use Rattle.std.specs.Prelude.{◌≡◌};
ghost use Rattle.std.specs.Int.{w16, w32};
ghost use Rattle.lang_base.specs.Reading.{IsRead, byte, number, below, up_to};

use crate::errors::FormError;

/// A byte.
pub fn read_byte(bytes: &mut &[u8]) -> Result<u8, FormError>
    ensures { IsRead (byte bytes.old.now) result bytes.new.now }
{
    match *bytes {
        [] => Err(FormError::Short),
        [first, rest @ ..] => {
            *bytes = rest;
            Ok(*first)
        }
    }
}

/// A number of two bytes.
pub fn read_u16(bytes: &mut &[u8]) -> Result<u16, FormError>
    ensures { IsRead (number w16 bytes.old.now) result bytes.new.now }
{
    if bytes.len() < 2 {
        return Err(FormError::Short);
    }
    let (front, rest) = bytes.split_at(2);
    *bytes = rest;
    Ok(u16::from_be_bytes([front[0], front[1]]))
}

/// A number of four bytes.
pub fn read_u32(bytes: &mut &[u8]) -> Result<u32, FormError>
    ensures { IsRead (number w32 bytes.old.now) result bytes.new.now }
{
    if bytes.len() < 4 {
        return Err(FormError::Short);
    }
    let (front, rest) = bytes.split_at(4);
    *bytes = rest;
    Ok(u32::from_be_bytes([front[0], front[1], front[2], front[3]]))
}

/// A number of two bytes below a bound.
pub fn read_u16_below(bound: u32, bytes: &mut &[u8]) -> Result<u16, FormError>
    ensures { IsRead (below bound (number w16) bytes.old.now) result bytes.new.now }
{
    let number = read_u16(bytes)?;
    if u32::from(number) < bound {
        Ok(number)
    } else {
        Err(FormError::NotCanonical)
    }
}

/// A count of one byte, up to a limit.
pub fn read_count(limit: u8, bytes: &mut &[u8]) -> Result<u8, FormError>
    ensures { IsRead (up_to limit byte bytes.old.now) result bytes.new.now }
{
    let count = read_byte(bytes)?;
    if count <= limit {
        Ok(count)
    } else {
        Err(FormError::TooLarge)
    }
}
