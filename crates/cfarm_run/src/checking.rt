ghost use Rattle.std.specs.Prelude.{◌≡◌, OnOk, IfOk, IfErr};
ghost use Rattle.std.specs.String.{string_bytes};
ghost use Rattle.c_checker_rules.specs.Checked.{program_tree};
ghost use Rattle.cfarm_run.specs.Counts.{counts_line};
ghost use Rattle.cfarm_run.specs.TextTold.{HasCounted, IsTextFault, Printed};

use crate::command_error::CommandError;
use c_checker_rules::CProgram;
use c_texts::accept;
use cfarm_output::print_whole;
use lang_helpers::RunError;
use std::alloc::{AllocError, Global};
use std::io::Write;

/// How many functions with bodies and how many globals a program has, as a line.
fn counted(alloc: Global, program: &CProgram) -> Result<String, AllocError>
    ensures { IfOk result (λ text. string_bytes text ≡ counts_line (program_tree program.now)) }
{
    let functions = program.functions().len();
    let globals = program.globals().len();
    format!(in alloc; "ok {functions} functions {globals} globals\n")
}

/// Checks a text, and prints `ok F functions G globals`, which is flushed: how many functions have bodies, and how
/// many globals it declares, where an array is one.
pub fn check_text<W: Write>(alloc: Global, text: &[u8], out: &mut W) -> Result<(), CommandError>
    // The text is accepted, and its counts are printed.
    ensures accepted { OnOk result (HasCounted text.now (W.contents out.old) (W.contents out.new)) }
    // A refusal tells the first fault of the text.
    ensures refused { IfErr result (λ fault. IsTextFault text.now fault) }
    // Where the text is refused, or there is no memory, nothing is printed; a writer that fails holds a beginning of what
    // an accepted text prints.
    ensures printed { IfErr result (λ fault. Printed text.now fault (W.contents out.old) (W.contents out.new)) }
{
    let program = accept(alloc, text)?;
    let Ok(line) = counted(alloc, &program) else {
        return Err(CommandError::Run(RunError::NoMemory));
    };
    match print_whole(out, line.as_bytes()) {
        Ok(()) => Ok(()),
        Err(_) => Err(CommandError::Run(RunError::Write)),
    }
}
