//! Whole files of programs.

ghost use Rattle.std.specs.Prelude.{◌≡◌, IfOk, IfErr};
ghost use Rattle.text_files.specs.Files.{IsFileOf, HasNone, tag_of};
ghost use Rattle.text_offers.specs.Files.{first_of};

use lang::{one_program, read_program};
use lang_base::{FormError, Language, Program};
use std::alloc::Global;

/// The first byte, 0 where there is none.
pub(crate) fn first_of(bytes: &[u8]) -> u8
    ensures { result ≡ first_of bytes.now }
{
    if bytes.is_empty() {
        return 0;
    }
    bytes[0]
}

/// The byte that tells the language, 0 where there is none.
pub(crate) fn tag_of(bytes: &[u8]) -> u8
    ensures { result ≡ tag_of bytes.now }
{
    if bytes.len() <= 4 {
        return 0;
    }
    bytes[4]
}

/// The program that all of the bytes spell.
pub(crate) fn read_whole<L: Language>(
    alloc: Global,
    bytes: &[u8],
) -> Result<Program<L::Fun>, FormError>
    ensures ok { IfOk result (λ program. IsFileOf L.TAG L.spelling L.fits bytes.now program) }
    ensures refused { IfErr result (λ fault. HasNone (IsFileOf L.TAG L.spelling L.fits) bytes.now fault) }
{
    one_program::<L>();
    let (program, length) = read_program::<L>(alloc, bytes)?;
    if length < bytes.len() {
        return Err(FormError::NotCanonical);
    }
    Ok(program)
}
