ghost use Rattle.std.specs.Prelude.{◌≡◌, IfOk, IfErr};
ghost use Rattle.cfarm_run.specs.ExecTold.{IsBehindTold, IsFormTold, IsSpelled};

use lang::{one_program, read_program};
use lang_base::{FormError, Program};
use linear_language::{Function, Linear};
use std::alloc::Global;

/// The program that all of the bytes spell.
pub fn read_whole(alloc: Global, bytes: &[u8]) -> Result<Program<Function>, FormError>
    ensures ok { IfOk result (λ program. IsSpelled bytes.now program) }
    ensures refused { IfErr result (λ fault. IsFormTold bytes.now fault) }
    ensures behind { IfErr result (λ fault. IsBehindTold bytes.now fault) }
{
    one_program::<Linear>();
    let (program, length) = read_program::<Linear>(alloc, bytes)?;
    if length < bytes.len() {
        return Err(FormError::NotCanonical);
    }
    Ok(program)
}
