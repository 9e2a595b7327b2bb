//! What stands before a program's functions.

ghost use Rattle.lang_base.specs.Reading.{Reads};
ghost use Rattle.lang.specs.Reading.{body, head};

use crate::globals::read_globals;
use lang_base::{FormError, Row, read_byte, read_count};
use std::alloc;

/// The globals, and the number of functions.
#[tactic(auto, unfolding(crate::specs::Reading::body))]
fn read_body(
    alloc: alloc::Global,
    bytes: &mut &[u8],
) -> Result<(Row<lang_base::Global>, u8), FormError>
    ensures { Reads (body bytes.old.now) result bytes.new.now }
{
    let globals = read_globals(alloc, bytes)?;
    let count = read_count(64, bytes)?;
    Ok((globals, count))
}

/// The same, behind the four bytes of every program and the tag of its language.
#[tactic(auto, unfolding(crate::specs::Reading::head))]
pub fn read_head(
    alloc: alloc::Global,
    tag: u8,
    bytes: &mut &[u8],
) -> Result<(Row<lang_base::Global>, u8), FormError>
    ensures { Reads (head tag bytes.old.now) result bytes.new.now }
{
    if read_byte(bytes)? != b'C' {
        return Err(FormError::BadTag);
    }
    if read_byte(bytes)? != b'F' {
        return Err(FormError::BadTag);
    }
    if read_byte(bytes)? != b'P' {
        return Err(FormError::BadTag);
    }
    if read_byte(bytes)? != b'1' {
        return Err(FormError::BadTag);
    }
    if read_byte(bytes)? != tag {
        return Err(FormError::BadTag);
    }
    read_body(alloc, bytes)
}
