//! Values with one spelling: what stands on their reader and their writer alone.

ghost use Rattle.std.specs.Prelude.{◌≡◌, ◌≢◌, ◌≤◌, ℕ, List, ◌++◌, length, take, OnOk, OnErr, IfOk, IfErr};
ghost use Rattle.lang_base.specs.Reading.{Reading, Reads};
ghost use Rattle.lang_base.specs.Texts.{Appends};
ghost use Rattle.lang_base.proofs.Forms.{IsForm};

use lang_base::{FormError, NoMemory};
use std::alloc::Global;

/// Values with one spelling, by a reader and a writer of it.
pub trait Form {
    /// What is spelled.
    type Value: Drop;

    /// The value that the bytes begin with and the bytes behind it, or the first fault.
    ghost reading: { Reading Self.Value };

    /// The bytes of a value.
    ghost text: { Self.Value → List ℕ };

    /// Which values have a spelling.
    ghost in_range: { Self.Value → Type 0 };

    /// Reads a value, and goes on behind it.
    fn read_next(alloc: Global, bytes: &mut &[u8]) -> Result<Self::Value, FormError>
        ensures { Reads (reading bytes.old.now) result bytes.new.now };

    /// Writes the value at the end of `out`; where memory runs out, a beginning of it is written.
    fn push(out: &mut Vec<u8>, value: &Self::Value) -> Result<(), NoMemory>
        ensures { Appends result (text value.now) out.old.items out.new.items };

    /// Each spelling is read again, and nothing else is read.
    ghost form: { IsForm reading text in_range };
}

/// Reads the value whose spelling is a front of the bytes, and says how long that front is.
pub fn read_front<F: Form>(alloc: Global, bytes: &[u8]) -> Result<(F::Value, usize), FormError>
    ensures within { IfOk result (λ found. found.1 ≤ length bytes.now) }
    ensures fits { IfOk result (λ found. F.in_range found.0) }
    ensures front { IfOk result (λ found. take found.1 bytes.now ≡ F.text found.0) }
    ensures refused { IfErr result (λ e. e ≢ FormError.NoMemory →
        (value : F.Value) (rest : List ℕ) → F.in_range value → bytes.now ≡ F.text value ++ rest → ⊥) }
{
    let mut rest = bytes;
    let value = F::read_next(alloc, &mut rest)?;
    Ok((value, bytes.len() - rest.len()))
}

/// Writes the spelling at the end of `out`, which a refusal leaves as it was.
pub fn write_whole<F: Form>(value: &F::Value, out: &mut Vec<u8>) -> Result<(), NoMemory>
    ensures ok { OnOk result (out.new.items ≡ out.old.items ++ F.text value.now) }
    ensures err { OnErr result (out.new.items ≡ out.old.items) }
{
    let length = out.len();
    let written = F::push(out, value);
    if written.is_err() {
        out.truncate(length);
    }
    written
}
