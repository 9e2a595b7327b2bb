//! A function whose chosen offers are never linked.

ghost use Rattle.std.specs.Prelude.{◌≡◌, ◌≤◌, ◌<◌, ◌++◌, length, OnOk};
ghost use Rattle.std.specs.String.{string_bytes};
ghost use Rattle.c_checker_rules.specs.Checked.{program_tree};
ghost use Rattle.cminor_program_ranges.specs.Names.{HaveNames};
ghost use Rattle.cfarm_build_faults.specs.Lines.{told_line};
ghost use Rattle.cfarm_fsck_files.specs.Lost.{ended};
ghost use Rattle.cfarm_fsck_files.specs.Unlinked.{IsSaidOf};

use crate::lost::push_end;
use cfarm_build_faults::{BuildError, ToldFault};
use cfarm_output::ErrorLines;
use cfarm_program_status::{tell, tell_no_memory};
use farm_nodes_source::{Source, name_of};
use lang_base::NoMemory;
use linker::LinkError;
use std::alloc::Global;

/// Writes the line of this fault behind these lines.
fn push_fault(fault: &BuildError, lines: &mut String) -> Result<(), NoMemory>
    ensures { OnOk result (string_bytes lines.new ≡ ended (string_bytes lines.old) ++ told_line fault.now) }
{
    push_end(lines)?;
    let line = ToldFault(fault);
    write!(lines, "{line}")?;
    Ok(())
}

/// Tells the function, by the line and with the status of `build`, behind these lines.
#[tactic(auto, using(crate::proofs::Statuses::in_table, crate::proofs::Unlinked::said_without_memory, crate::proofs::Unlinked::said_named))]
pub(crate) fn tell_unchained<E: ErrorLines>(
    alloc: Global,
    source: &Source,
    function: usize,
    lines: String,
    err: &mut E,
) -> u8
    requires names { HaveNames (program_tree source.now.program) }
    requires number { function < length source.now.program.functions }
    ensures told { IsSaidOf source.now (string_bytes lines) function result (E.contents err.old) (E.contents err.new) }
    ensures table { result ≤ 7 }
{
    let mut text = lines;
    let Ok(name) = name_of(alloc, &source.program, function) else {
        return tell_no_memory(err);
    };
    let fault = BuildError::Unlinked(LinkError::Unchained(function), name);
    match push_fault(&fault, &mut text) {
        Ok(()) => tell(err, text.as_str(), fault.status()),
        Err(NoMemory) => tell_no_memory(err),
    }
}
