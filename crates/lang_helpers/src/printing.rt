ghost use Rattle.std.specs.Prelude.{◌≡◌, true, false, [], ◌∷◌, OnOk, OnErr};
ghost use Rattle.std.specs.Io.KnownBytes.{Appends, Keeps};
ghost use Rattle.lang_helpers.specs.declared.error.RunError.{RunError};

use crate::answers::{Answer, meaning};
use crate::error::RunError;
use std::io::Write;

/// Tries to print one byte: whether it was printed, or a signal interrupted the write.
fn try_to_print<W: Write>(out: &mut W, byte: u8) -> Result<bool, RunError>
    ensures printed { OnOk result (result ≡ Ok true → Appends (W.contents out.old) (W.contents out.new) (byte ∷ [])) }
    ensures interrupted { OnOk result (result ≡ Ok false → Keeps (W.contents out.old) (W.contents out.new)) }
    ensures failed { OnErr result (Keeps (W.contents out.old) (W.contents out.new)) }
    ensures error { OnErr result (result ≡ Err RunError.Write) }
{
    let answer = out.write(&[byte]);
    match meaning(answer, 1) {
        Answer::Taken(_) => Ok(true),
        Answer::Interrupted => Ok(false),
        Answer::Failed => Err(RunError::Write),
    }
}

/// Prints one byte. A write that a signal interrupts is tried again. Where the writer fails nothing of it was
/// written.
pub fn print<W: Write>(out: &mut W, byte: u8) -> Result<(), RunError>
    ensures printed { OnOk result (Appends (W.contents out.old) (W.contents out.new) (byte ∷ [])) }
    ensures failed { OnErr result (Keeps (W.contents out.old) (W.contents out.new)) }
    ensures error { OnErr result (result ≡ Err RunError.Write) }
{
    for _ in 0..u64::MAX {
        if try_to_print(out, byte)? {
            return Ok(());
        }
    }
    Err(RunError::Write)
}
