ghost use Rattle.std.specs.Prelude.{◌≡◌, false, IfOk, IfErr, OnOk};
ghost use Rattle.cfarm_run.specs.ExecTold.{HasRun, IsExecFault, Ran};

use crate::exec_error::ExecError;
use crate::reading::read_whole;
use cfarm_output::Paced;
use lang_base::Shown;
use lang_helpers::RunError;
use linear::run;
use std::alloc::Global;
use std::io::Write;

/// Runs the program of Linear that the bytes spell for at most so many instructions: writes its output and flushes
/// it, and tells whether it ended, went wrong or is still running.
pub fn exec<W: Write>(
    alloc: Global,
    bytes: &[u8],
    limit: u64,
    out: &mut Paced<W>,
) -> Result<Shown, ExecError>
    // The bytes spell a program, and what it does within the bound was written and is told.
    ensures ran { IfOk result (λ s. HasRun bytes.now limit s (W.contents out.old.taker) (W.contents out.new.taker)) }
    // Nothing of it is held back.
    ensures handed { OnOk result (out.new.is_held ≡ false) }
    // Bytes are refused only where they spell no program, by the number for bytes behind one where there are such, and
    // then nothing is printed; a run that is broken off wrote a beginning of the output.
    ensures refused { IfErr result (λ fault. IsExecFault bytes.now fault) }
    ensures beginning { IfErr result (λ f. Ran bytes.now limit f (W.contents out.old.taker) (W.contents out.new.taker)) }
{
    let program = read_whole(alloc, bytes)?;
    let shown = run(alloc, &program, limit, out)?;
    match out.flush() {
        Ok(()) => Ok(shown),
        Err(_) => Err(ExecError::Run(RunError::Write)),
    }
}
