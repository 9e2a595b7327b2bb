//! Writers of numbers, which every form's writer calls.

ghost use Rattle.std.specs.Prelude.{[], ◌∷◌};
ghost use Rattle.std.specs.Int.{w16, w32, to_be_bytes};
ghost use Rattle.lang_base.specs.Texts.{Appends};

use crate::errors::NoMemory;

/// Writes a byte.
pub fn push_byte(out: &mut Vec<u8>, byte: u8) -> Result<(), NoMemory>
    ensures { Appends result (byte ∷ []) out.old.items out.new.items }
{
    out.push(byte)?;
    Ok(())
}

/// Writes a number in two bytes.
pub fn push_u16(out: &mut Vec<u8>, number: u16) -> Result<(), NoMemory>
    ensures { Appends result (to_be_bytes w16 number) out.old.items out.new.items }
{
    out.extend_from_slice(&number.to_be_bytes())?;
    Ok(())
}

/// Writes a number in four bytes.
pub fn push_u32(out: &mut Vec<u8>, number: u32) -> Result<(), NoMemory>
    ensures { Appends result (to_be_bytes w32 number) out.old.items out.new.items }
{
    out.extend_from_slice(&number.to_be_bytes())?;
    Ok(())
}
