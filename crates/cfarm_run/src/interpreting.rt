ghost use Rattle.std.specs.Prelude.{◌≡◌, false, IfOk, IfErr, OnOk};
ghost use Rattle.cfarm_run.specs.TextTold.{HasRun, IsTextFault, Ran};

use crate::command_error::CommandError;
use c_meaning::run;
use c_texts::accept;
use cfarm_output::Paced;
use lang_base::Shown;
use lang_helpers::RunError;
use std::alloc::Global;
use std::io::Write;

/// Runs the program of a text with this bound: writes its output and flushes it, and tells whether it ended, went
/// wrong or is still running.
pub fn interpret<W: Write>(
    alloc: Global,
    text: &[u8],
    depth: u64,
    out: &mut Paced<W>,
) -> Result<Shown, CommandError>
    // The text is accepted, and what its program does at the bound was written and is told.
    ensures ran { IfOk result (λ shown. HasRun text.now depth shown (W.contents out.old.taker) (W.contents out.new.taker)) }
    // Nothing of it is held back.
    ensures handed { OnOk result (out.new.is_held ≡ false) }
    // A refusal tells the first fault of the text, and prints nothing; a run that is broken off wrote a
    // beginning of the output.
    ensures refused { IfErr result (λ fault. IsTextFault text.now fault) }
    ensures beginning { IfErr result (λ f. Ran text.now depth f (W.contents out.old.taker) (W.contents out.new.taker)) }
{
    let program = accept(alloc, text)?;
    let shown = run(alloc, &program, depth, out)?;
    match out.flush() {
        Ok(()) => Ok(shown),
        Err(_) => Err(CommandError::Run(RunError::Write)),
    }
}
